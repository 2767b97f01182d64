// What a new reader begins with. The request and the size of its reply come apart, as document 01 refuses them ("A new reader tests 7, then 6") and C
// passes them, to `FrameReader::new` too: a struct of both would be made only to be taken apart. `strict` is a flag, since document 02 has a mode that is on or off (K1): the reader
// keeps it as a number among others, and no step here is chosen by it.
ghost use Rattle.std.specs.Prelude.{◌≡◌};
ghost use Rattle.rules.specs.Reader.{new_check};
ghost use Rattle.reader.specs.Told.{opening_of, fresh_counts};

use crate::{Counts, FrameReader};
use frame::{FRAME_LENGTH, Refusal};

// 0, 6 or 7, and the numbers: no `Result`, nor is `Opened`, since a refusal has a reader beside it, too: "A refused new reader is all zero" (`opened`).
#[repr(C)]
#[derive(Clone, Copy, Debug, PartialEq, Eq)]
pub struct Opening {
    pub number: u8,
    pub counts: Counts,
}

// A new reader, and 0, 6 or 7.
#[repr(C)]
#[derive(Clone, Copy, Debug, PartialEq, Eq)]
pub struct Opened {
    pub number: u8,
    pub reader: FrameReader,
}

// The numbers of a reader that has taken nothing.
pub fn fresh_counts(command: u8, wanted: usize, strict: bool) -> Counts
    ensures { result ≡ fresh_counts command wanted strict }
{
    Counts {
        command,
        mark: false,
        strict,
        tally: [0; 7],
        wanted,
        collected: 0,
        held: 0,
    }
}

// 7, then 6.
fn new_check(request: &[u8], reply_size: usize) -> Result<(), Refusal>
    ensures { result ≡ new_check request.now reply_size }
{
    if request.len() < 3 {
        return Err(Refusal::RequestTooShort);
    }
    if 1105 < reply_size {
        return Err(Refusal::ReplyTooLong);
    }
    Ok(())
}

// What a new reader for the reply to `request`, of `reply_size` bytes, begins with; a strict one will throw echoes away.
pub fn open_counts(request: &[u8], reply_size: usize, strict: bool) -> Opening
    ensures { result ≡ opening_of request.now reply_size strict }
{
    match new_check(request, reply_size) {
        Ok(()) => Opening {
            number: 0,
            counts: fresh_counts(request[2], reply_size.div_ceil(FRAME_LENGTH), strict),
        },
        // "A refused new reader is all zero"
        Err(refusal) => Opening {
            number: refusal.into(),
            counts: fresh_counts(0, 0, false),
        },
    }
}
