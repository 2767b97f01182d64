// Replies that carry a list, for C: 95 to 98. An export cannot be generic, so each is its own line; and it takes the sender's address and the
// lent buffer as two parameters, as in C (include/daly_writers.h).
ghost use Rattle.writing_flags.specs.Replies.{faults_reply};
ghost use Rattle.writers.specs.Told.{TellsFrame, TellsCells, TellsSensors, TellsBalance};

use list::ListTold;

#[unsafe(no_mangle)]
pub extern "C" fn daly_write_cell_voltages(address: u8, cells: &[u16], out: &mut [u8]) -> ListTold
    ensures { TellsCells address cells.now out.old result out.new }
{
    writing_lists::write_cell_voltages(address, cells, out).into()
}

#[unsafe(no_mangle)]
pub extern "C" fn daly_write_cell_temperatures(
    address: u8,
    degrees: &[i32],
    out: &mut [u8],
) -> ListTold
    ensures { TellsSensors address degrees.now out.old result out.new }
{
    writing_lists::write_cell_temperatures(address, degrees, out).into()
}

#[unsafe(no_mangle)]
pub extern "C" fn daly_write_cell_balance_state(
    address: u8,
    flags: &[bool],
    out: &mut [u8],
) -> ListTold
    ensures { TellsBalance address flags.now out.old result out.new }
{
    writing_flags::write_cell_balance_state(address, flags, out).into()
}

// Positions in the Rust's `ErrorCode`.
#[unsafe(no_mangle)]
pub extern "C" fn daly_write_error_codes(
    address: u8,
    faults: &[bool; 48],
    out: &mut [u8],
) -> ListTold
    ensures { TellsFrame (faults_reply address faults.now) out.old result out.new }
{
    writing_flags::write_error_codes(address, faults, out).into()
}
