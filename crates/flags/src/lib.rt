// The replies of one frame that list many values: balance flags and faults, stored into lent places.
#![tactic(auto)]

ghost use Rattle.std.specs.Prelude.{◌≡◌, ◌+◌, ◌≤◌, ◌<◌, length, IfOk, IfErr, Err};
ghost use Rattle.wire.specs.Lists.{firsts};
ghost use Rattle.frame.specs.Checks.{frame_check};
ghost use Rattle.list.specs.Listed.{gate};
ghost use Rattle.flags.specs.Balance.{flag_count, flag_at, DecodesBalance};
ghost use Rattle.flags.specs.Faults.{run, faults_by, faults, DecodesFaults};
ghost use Rattle.flags.specs.Noted.{IsRoomy, Noted, low_tests, high_tests};

use frame::{FRAME_LENGTH, Refusal, command};

// The frame, in document 01's order: 1, 9, then what it says, summed over the whole lent buffer. Of the lent places it is told how many, since
// those of 97 are of another type than those of 98.
fn one_frame_check(
    reply: &[u8],
    command: u8,
    places: usize,
    room: usize,
) -> Result<&[u8; 13], Refusal>
    ensures sound { IfOk result (λ frame. IsRoomy command places room reply.now frame.now) }
    ensures refused { IfErr result (λ refusal. gate 13 places room reply.now (frame_check command reply.now) ≡ Err refusal) }
{
    if reply.len() < FRAME_LENGTH {
        return Err(Refusal::ReplySizeError);
    }
    if room < places {
        return Err(Refusal::NoRoom);
    }
    frame::sound_frame(reply, command)
}

// One flag at least, and 48 at most.
fn flag_count(n: u8) -> usize
    ensures { result ≡ flag_count n }
{
    usize::from(n.clamp(1, 48))
}

fn store_flags(frame: &[u8; 13], out: &mut [bool])
    requires { length out.old ≤ 48 }
    ensures { out.new ≡ firsts (flag_at frame.now) (length out.old) }
{
    for (i, flag) in out.iter_mut().enumerate() {
        *flag = wire::read_bit(frame[4 + i / 8], (i % 8) as u8);
    }
}

// Which cells are balancing.
pub fn decode_cell_balance_state(
    rx_buffer: &[u8],
    n_cells: u8,
    out: &mut [bool],
) -> Result<usize, Refusal>
    ensures { DecodesBalance rx_buffer.now n_cells out.old result out.new }
{
    let count = flag_count(n_cells);
    let frame = one_frame_check(rx_buffer, command::CELL_BALANCE_STATE, count, out.len())?;
    store_flags(frame, &mut out[..count]);
    Ok(count)
}

// Tests bits place, place + 1, .. of a byte, `count` of them, which stand for the faults position, position + 1, ..,
// and puts the position of each that is set at the next place from `at` on. Answers the place after the last, as the three below do: the last
// answer is that of `decode_error_codes`. `byte` is a place, as in the clause, so that the calls read as the list of tests that they are.
fn note(
    out: &mut [u8],
    at: usize,
    frame: &[u8; 13],
    byte: usize,
    place: u8,
    position: u8,
    count: u8,
) -> usize
    requires there { byte < 13 }
    requires tests { (place + count ≤ 8) × (position + count ≤ 48) }
    requires room { at + count ≤ length out.old }
    ensures { Noted out.old at count (faults_by frame.now (run byte place position count)) out.new result }
{
    let b = frame[byte];
    let mut next = at;
    // `i` is how far a bit and its position are from the first; no list has it as an index.
    for i in 0..count {
        if wire::read_bit(b, place + i) {
            out[next] = position + i;
            next += 1;
        }
    }
    next
}

// The tests of bytes 4 to 6: position 17 before 16.
fn note_low(out: &mut [u8], frame: &[u8; 13]) -> usize
    requires room { 48 ≤ length out.old }
    ensures { Noted out.old 0 24 (faults_by frame.now low_tests) out.new result }
{
    let n = note(out, 0, frame, 4, 0, 0, 8);
    let n = note(out, n, frame, 5, 0, 8, 8);
    let n = note(out, n, frame, 6, 1, 17, 1);
    let n = note(out, n, frame, 6, 0, 16, 1);
    note(out, n, frame, 6, 2, 18, 6)
}

// The tests of bytes 7 to 10. No twin of the function above: none of its tests is one of these.
fn note_high(out: &mut [u8], at: usize, frame: &[u8; 13]) -> usize
    requires room { at + 24 ≤ length out.old }
    ensures { Noted out.old at 24 (faults_by frame.now high_tests) out.new result }
{
    let n = note(out, at, frame, 7, 0, 24, 4);
    let n = note(out, n, frame, 8, 0, 28, 8);
    let n = note(out, n, frame, 9, 0, 36, 8);
    note(out, n, frame, 10, 0, 44, 4)
}

// All 48 tests.
fn note_faults(out: &mut [u8], frame: &[u8; 13]) -> usize
    requires room { 48 ≤ length out.old }
    ensures { Noted out.old 0 48 (faults frame.now) out.new result }
{
    let n = note_low(out, frame);
    note_high(out, n, frame)
}

// The faults, as positions in the Rust's `ErrorCode`.
pub fn decode_error_codes(rx_buffer: &[u8], out: &mut [u8]) -> Result<usize, Refusal>
    ensures { DecodesFaults rx_buffer.now out.old result out.new }
{
    let frame = one_frame_check(rx_buffer, command::ERROR_CODE, 48, out.len())?;
    Ok(note_faults(out, frame))
}
