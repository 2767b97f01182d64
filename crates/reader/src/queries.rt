// What a reader is asked between pushes, and the frames that it hands out: of its frames, lent, and its numbers by value, as the clauses have them (`view`). `missing_of` and `completed_of` share their test, `state_check`; one function over
// both would take what is told without a refusal, and what with 8, as parameters, and say less than each does.
ghost use Rattle.std.specs.Prelude.{◌≡◌, length};
ghost use Rattle.rules.specs.Reader.{copy_check, joined};
ghost use Rattle.list.specs.Listed.{Stores};
ghost use Rattle.reader.specs.View.{view};
ghost use Rattle.reader.specs.Told.{missing_told, complete_told};

use crate::Counts;
use crate::scan::put;
use crate::state::state_check;
use frame::{FRAME_LENGTH, Refusal};

// 0 or 8, and the bytes that the next frame still needs. No `Result`, nor is `Completed`: "`missing` then answers 0 and completeness no, both with 8".
#[repr(C)]
#[derive(Clone, Copy, Debug, PartialEq, Eq)]
pub struct Missing {
    pub number: u8,
    pub missing: usize,
}

// 0 or 8, and whether all wanted frames are there.
#[repr(C)]
#[derive(Clone, Copy, Debug, PartialEq, Eq)]
pub struct Completed {
    pub number: u8,
    pub complete: bool,
}

// How many bytes the next frame still needs, of a reader's frames, lent, and its numbers by value.
pub fn missing_of(frames: &[u8; 1105], c: Counts) -> Missing
    ensures { result ≡ missing_told (view c frames.now) }
{
    match state_check(frames, &c.tally, c.into()) {
        Ok(()) => Missing {
            number: 0,
            missing: if c.wanted <= c.collected {
                0
            } else {
                FRAME_LENGTH - c.held
            },
        },
        Err(refusal) => Missing {
            number: refusal.into(),
            missing: 0,
        },
    }
}

// Whether all wanted frames are collected, likewise.
pub fn completed_of(frames: &[u8; 1105], c: Counts) -> Completed
    ensures { result ≡ complete_told (view c frames.now) }
{
    match state_check(frames, &c.tally, c.into()) {
        Ok(()) => Completed {
            number: 0,
            complete: c.wanted <= c.collected,
        },
        Err(refusal) => Completed {
            number: refusal.into(),
            complete: false,
        },
    }
}

// The collected frames, one after the other, into `out`, likewise.
pub fn copy_from(frames: &[u8; 1105], c: Counts, out: &mut [u8]) -> Result<usize, Refusal>
    ensures { Stores (copy_check (view c frames.now) (length out.old)) (joined (view c frames.now).collected) out.old result out.new }
{
    state_check(frames, &c.tally, c.into())?;
    let n = FRAME_LENGTH * c.collected;
    if out.len() < n {
        return Err(Refusal::NoRoom);
    }
    put(out, 0, &frames[..n]);
    Ok(n)
}
