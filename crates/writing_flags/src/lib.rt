// Balance flags and faults as a board sends them: 97 and 98, into a lent buffer.
// No twins: the two replies part their flags into bytes differently. `OneFrame` for a type of the lent flags was tried, and does not do:
// "`rattle check` cannot give this method the clauses of its trait yet".
#![tactic(auto)]

ghost use Rattle.std.specs.Prelude.{◌≡◌};
ghost use Rattle.writing.specs.Replies.{WritesFrame};
ghost use Rattle.writing_flags.specs.Replies.{balance_reply, WritesBalance, faults_reply};

use frame::{Refusal, command};
use wire::byte_of;

fn balance_reply(address: u8, flags: &[bool]) -> [u8; 13]
    ensures { result ≡ balance_reply address flags.now }
{
    frame::framed(
        address,
        command::CELL_BALANCE_STATE,
        [
            byte_of(flags, 0, 8),
            byte_of(flags, 8, 8),
            byte_of(flags, 16, 8),
            byte_of(flags, 24, 8),
            byte_of(flags, 32, 8),
            byte_of(flags, 40, 8),
            0,
            0,
        ],
    )
}

// Which cells are balancing: 12 unless it is 1 to 48 flags, then 9.
pub fn write_cell_balance_state(
    address: u8,
    flags: &[bool],
    out: &mut [u8],
) -> Result<usize, Refusal>
    ensures { WritesBalance address flags.now out.old result out.new }
{
    match flags.len() {
        1..=48 => writing::write_frame(balance_reply(address, flags), out),
        _ => Err(Refusal::ValueOutOfRange),
    }
}

// Positions 24 to 27 and 44 to 47 have a byte's low half each.
fn faults_reply(address: u8, faults: &[bool]) -> [u8; 13]
    ensures { result ≡ faults_reply address faults.now }
{
    frame::framed(
        address,
        command::ERROR_CODE,
        [
            byte_of(faults, 0, 8),
            byte_of(faults, 8, 8),
            byte_of(faults, 16, 8),
            byte_of(faults, 24, 4),
            byte_of(faults, 28, 8),
            byte_of(faults, 36, 8),
            byte_of(faults, 44, 4),
            0,
        ],
    )
}

// Which faults there are, by their positions in the Rust's `ErrorCode`.
pub fn write_error_codes(address: u8, faults: &[bool; 48], out: &mut [u8]) -> Result<usize, Refusal>
    ensures { WritesFrame (faults_reply address faults.now) out.old result out.new }
{
    writing::write_frame(faults_reply(address, faults), out)
}
