// A stream pushed in chunks of one size, in one call: the reader's core as a caller uses it, on memory of its own.
#![tactic(auto)]

ghost use Rattle.std.specs.Prelude.{◌≤◌, ◌<◌};
ghost use Rattle.reader.specs.View.{Answered};

use reader::{Counts, Said, Standing, Told};

// How long the next chunk is, of the bytes left: `size`, but at least one and at most all of them.
fn chunk_size(size: usize, left: usize) -> usize
    ensures { (result ≤ left) × (0 < left → 0 < result) }
{
    size.max(1).min(left)
}

// The last status, and all bytes taken. The statement is that of one push of the whole stream: `size` is not in it, and is how long a chunk is to be, no
// place in the stream. An empty stream pushes one empty chunk, since a push of none would tell no status: `stream.chunks(size)` has no turn there.
#[unsafe(no_mangle)]
pub extern "C" fn daly_push_in_chunks(
    frames: &mut [u8; 1105],
    counts: Counts,
    stream: &[u8],
    size: usize,
) -> Told
    ensures { Answered frames.old counts stream.now result.said.status result.said.took result.counts frames.new }
{
    let mut at: usize = 0;
    let mut status: u8 = 0;
    let mut took: usize = 0;
    let mut tally = counts.tally;
    let mut c = Standing::from(counts);
    let mut more = true;
    while more {
        let n = chunk_size(size, stream.len() - at);
        let t = reader::push_into(frames, &mut tally, c, &stream[at..at + n]);
        status = t.said.status;
        took += t.said.took;
        c = t.standing;
        at += n;
        more = at < stream.len();
    }
    Told {
        said: Said { status, took },
        counts: c.counted(tally),
    }
}
