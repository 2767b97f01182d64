// The reader of a reply's frames: the rules of the crate `rules`, on bytes that come in any chunks.
#![tactic(auto)]

ghost use Rattle.std.specs.Prelude.{◌≡◌, length};
ghost use Rattle.rules.specs.Reader.{copy_check, joined};
ghost use Rattle.list.specs.Listed.{Stores};
ghost use Rattle.reader.specs.View.{view, counted, standing_of, Answered};
ghost use Rattle.reader.specs.Told.{opened, missing_told, complete_told};

use frame::Refusal;
pub use fresh::{Opened, Opening, fresh_counts, open_counts};
pub use pushing::{Pushed, Said, Told, Turn, Turned, Went, push_counts, push_into, turn_into};
pub use queries::{Completed, Missing, completed_of, copy_from, missing_of};

mod asked;
mod fresh;
mod moves;
mod pushing;
mod queries;
mod scan;
mod state;
pub mod tally;

// A reader's numbers: what it was asked for, what it has counted (the tally, whose places `tally` names), and how much of its array is in use.
// Counts of a part of `frames` and no slice of it: a reader is one piece of fixed memory, without heap, that C has with the fields in these places.
#[repr(C)]
#[derive(Clone, Copy, Debug, PartialEq, Eq)]
pub struct Counts {
    pub command: u8,
    pub mark: bool,
    pub strict: bool,
    pub tally: [u32; 7],
    pub wanted: usize,
    pub collected: usize,
    pub held: usize,
}

// The numbers without the tally: a push takes them by value, and the tally where it lies. Counts that are copied to and fro are slow: they are stored
// one by one and loaded several at once.
#[repr(C)]
#[derive(Clone, Copy, Debug, PartialEq, Eq)]
pub struct Standing {
    pub command: u8,
    pub mark: bool,
    pub strict: bool,
    pub wanted: usize,
    pub collected: usize,
    pub held: usize,
}

// The collected frames stand at the start of `frames`, and the bytes held right behind them: `counts` says how many of each.
#[repr(C)]
#[derive(Clone, Copy, Debug, PartialEq, Eq)]
pub struct FrameReader {
    pub counts: Counts,
    pub frames: [u8; 1105],
}

impl From<Counts> for Standing {
    ghost from_gives = { λ counts standing. standing ≡ standing_of counts };

    fn from(counts: Counts) -> Standing {
        Standing {
            command: counts.command,
            mark: counts.mark,
            strict: counts.strict,
            wanted: counts.wanted,
            collected: counts.collected,
            held: counts.held,
        }
    }
}

impl Standing {
    // The numbers with a tally. Field by field, as is `from`: C's layout of `Counts` has the tally in their midst, so that a `Standing` can't be a part of it.
    pub fn counted(self, tally: [u32; 7]) -> Counts
        ensures { result ≡ counted self tally }
    {
        Counts {
            command: self.command,
            mark: self.mark,
            strict: self.strict,
            tally,
            wanted: self.wanted,
            collected: self.collected,
            held: self.held,
        }
    }
}

// `missing` and `is_complete` are one call each, like `missing_of` and `completed_of` of `queries`, with two promises: `missing_told` and `complete_told`.
impl FrameReader {
    // A reader for the reply to `request`, which is `reply_size` bytes long.
    pub fn new(request: &[u8], reply_size: usize, strict: bool) -> Opened
        ensures { result ≡ opened request.now reply_size strict }
    {
        let Opening { number, counts } = open_counts(request, reply_size, strict);
        Opened {
            number,
            reader: FrameReader {
                counts,
                frames: [0; 1105],
            },
        }
    }

    // The push by value.
    pub fn push(self, chunk: &[u8]) -> Pushed
        ensures { Answered self.frames self.counts chunk.now result.said.status result.said.took result.reader.counts result.reader.frames }
    {
        let mut out = self;
        let t = push_counts(&mut out.frames, self.counts, chunk);
        out.counts = t.counts;
        Pushed {
            said: t.said,
            reader: out,
        }
    }

    // How many bytes the next frame still needs.
    pub fn missing(self) -> Missing
        ensures { result ≡ missing_told (view self.counts self.frames) }
    {
        missing_of(&self.frames, self.counts)
    }

    // Whether all wanted frames are collected.
    pub fn is_complete(self) -> Completed
        ensures { result ≡ complete_told (view self.counts self.frames) }
    {
        completed_of(&self.frames, self.counts)
    }

    // The collected frames, one after the other, into `out`.
    pub fn copy_out(self, out: &mut [u8]) -> Result<usize, Refusal>
        ensures { Stores (copy_check (view self.counts self.frames) (length out.old)) (joined (view self.counts self.frames).collected) out.old result out.new }
    {
        copy_from(&self.frames, self.counts, out)
    }
}
