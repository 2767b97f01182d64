// The tally: a reader's seven counts, each modulo 2^32, in the places in which C has them by name.
ghost use Rattle.std.specs.Prelude.{◌≡◌, ℕ, ◌+◌, ◌%◌, ◌<◌, slice_index, slice_set};
ghost use Rattle.rules.specs.Reader.{all_of};
ghost use Rattle.reader.specs.View.{discarded_in, reasons, reason, seat};

// The place of the bytes taken, and that of the frames cleared; between them are those of the bytes discarded (`Why::place`).
pub const TAKEN: usize = 0;

pub const CLEARED: usize = 6;

// Why bytes are discarded: "bytes before A5, bytes after a wrong sum, wrong command, wrong number, echo" (document 02, K3).
#[derive(Clone, Copy, Debug, PartialEq, Eq)]
pub(crate) enum Why {
    Noise = 1,
    Sum,
    Command,
    Number,
    Echo,
}

impl Why {
    // Where they are counted.
    pub(crate) fn place(self) -> usize
        ensures { result ≡ seat (reason self) }
    {
        self as usize
    }
}

// The counts of the bytes discarded, by name.
#[repr(C)]
#[derive(Clone, Copy, Debug, PartialEq, Eq)]
pub struct Discarded {
    pub noise: u32,
    pub sum: u32,
    pub command: u32,
    pub number: u32,
    pub echo: u32,
}

impl Discarded {
    // "their sum modulo 2^32 is the old count"
    pub fn all(self) -> u32
        ensures { result ≡ all_of (reasons self) }
    {
        self.noise
            .wrapping_add(self.sum)
            .wrapping_add(self.command)
            .wrapping_add(self.number)
            .wrapping_add(self.echo)
    }
}

// The five of a reader's tally.
pub fn discarded_in(tally: &[u32; 7]) -> Discarded
    ensures { result ≡ discarded_in tally.now }
{
    Discarded {
        noise: tally[Why::Noise.place()],
        sum: tally[Why::Sum.place()],
        command: tally[Why::Command.place()],
        number: tally[Why::Number.place()],
        echo: tally[Why::Echo.place()],
    }
}

// A count goes on, modulo 2^32: one function for all seven, where a field by name would need one for each. So the tally has places and no names.
pub(crate) fn add_count(tally: &mut [u32; 7], place: usize, more: usize)
    requires { place < 7 }
    ensures { tally.new ≡ slice_set tally.old place ((slice_index tally.old place + more) % 4294967296) }
{
    tally[place] = tally[place].wrapping_add((more % 0x1_0000_0000) as u32);
}
