// The pushes, and what each answers.
ghost use Rattle.std.specs.Prelude.{◌≡◌, ◌-◌, ◌<◌, ◌≤◌, ◌≢◌};
ghost use Rattle.reader.specs.View.{counted, Answered};
ghost use Rattle.reader.specs.Lent.{TurnedInto};

use crate::asked::Asked;
use crate::moves::advance;
use crate::tally::{TAKEN, add_count};
use crate::{Counts, FrameReader, Standing, state};
use frame::{FRAME_LENGTH, Refusal};

// What a push says: 0, 2 or 8, and how many bytes of the chunk it took. Neither this nor an answer below is a `Result`: "A push's 2 is a status", with which
// the reader "has moved on", and 8 comes with "the reader as given, with 0 taken". So each says something at every number, and C reads them all.
#[repr(C)]
#[derive(Clone, Copy, Debug, PartialEq, Eq)]
pub struct Said {
    pub status: u8,
    pub took: usize,
}

// What it answers beside the frames and the tally, where those are lent.
#[repr(C)]
#[derive(Clone, Copy, Debug, PartialEq, Eq)]
pub struct Went {
    pub said: Said,
    pub standing: Standing,
}

// What it answers beside the frames, where those are lent and the numbers are not.
#[repr(C)]
#[derive(Clone, Copy, Debug, PartialEq, Eq)]
pub struct Told {
    pub said: Said,
    pub counts: Counts,
}

// What a push says to one who reads the line: that, and how many bytes the next frame then still needs.
#[repr(C)]
#[derive(Clone, Copy, Debug, PartialEq, Eq)]
pub struct Turn {
    pub status: u8,
    pub missing: u8,
    pub took: usize,
}

// What it then answers beside the frames and the tally.
#[repr(C)]
#[derive(Clone, Copy, Debug, PartialEq, Eq)]
pub struct Turned {
    pub turn: Turn,
    pub standing: Standing,
}

// What it answers by value.
#[repr(C)]
#[derive(Clone, Copy, Debug, PartialEq, Eq)]
pub struct Pushed {
    pub said: Said,
    pub reader: FrameReader,
}

// A push on the frames and the tally, lent, and the other numbers by value: the core, which copies no frame that it does not collect and no count.
pub fn push_into(frames: &mut [u8; 1105], tally: &mut [u32; 7], c: Standing, chunk: &[u8]) -> Went
    ensures { Answered frames.old (counted c tally.old) chunk.now result.said.status result.said.took (counted result.standing tally.new) frames.new }
{
    let before = state::all_of(tally);
    if state::is_bad(frames, tally, c) {
        return Went {
            said: Said {
                status: Refusal::BadState.into(),
                took: 0,
            },
            standing: c,
        };
    }
    let asked = Asked {
        command: c.command,
        strict: c.strict,
        wanted: c.wanted,
    };
    let m = advance(frames, c.held, chunk, asked, c.collected, tally);
    let mark = state::passed(c.mark, before, m.lost);
    add_count(tally, TAKEN, m.took);
    // Of each field its source: what was moved, the mark, and what was given. No one value has them together.
    Went {
        said: Said {
            status: state::status_of(mark),
            took: m.took,
        },
        standing: Standing {
            mark,
            collected: m.collected,
            held: m.held,
            ..c
        },
    }
}

// The push on lent frames with all numbers by value.
pub fn push_counts(frames: &mut [u8; 1105], c: Counts, chunk: &[u8]) -> Told
    ensures { Answered frames.old c chunk.now result.said.status result.said.took result.counts frames.new }
{
    let mut tally = c.tally;
    let w = push_into(frames, &mut tally, c.into(), chunk);
    Told {
        said: w.said,
        counts: w.standing.counted(tally),
    }
}

// How many bytes the next frame needs after a push: a reader that was not refused is not in a bad state, so that it need not ask, as
// `missing_of` does. The status is the number that the push says (`Said`).
fn missing_after(status: u8, next: Standing) -> u8
    requires { (status ≢ 8) → next.held ≤ 12 }
    ensures { (status ≡ 8 → result ≡ 0) × ((status ≢ 8) → next.wanted ≤ next.collected → result ≡ 0) × ((status ≢ 8) → next.collected < next.wanted → result ≡ 13 - next.held) }
{
    if status == 8 {
        return 0;
    }
    if next.wanted <= next.collected {
        return 0;
    }
    (FRAME_LENGTH - next.held) as u8
}

// The push that also tells what is then missing, so that a turn of a loop has one call.
pub fn turn_into(frames: &mut [u8; 1105], tally: &mut [u32; 7], c: Standing, chunk: &[u8]) -> Turned
    ensures { TurnedInto frames.old (counted c tally.old) chunk.now result.turn (counted result.standing tally.new) frames.new }
{
    let w = push_into(frames, tally, c, chunk);
    // `missing` lies between the two that were said: so C has them.
    Turned {
        turn: Turn {
            status: w.said.status,
            missing: missing_after(w.said.status, w.standing),
            took: w.said.took,
        },
        standing: w.standing,
    }
}
