// A push's way over its chunk: held bytes and the first of the chunk meet in a small bridge, the rest is scanned where it lies.
// `collected` and `held` say how much of the reader's one array is in use: no heap, and C's layout. They stay two numbers, with a bound each, since
// `direct` and `hold_bridge` take the one alone, `scan` changes it alone, and each function asks of them no more than it uses.
// The five that the ways share come in parts: each way goes on with a part of the chunk or other frames collected, and would take a struct of them apart.
ghost use Rattle.std.specs.Prelude.{◌≡◌, ◌+◌, ◌*◌, ◌<◌, ◌≤◌, ◌++◌, length, take, drop, min, slice_index};
ghost use Rattle.rules.specs.Ledger.{run};
ghost use Rattle.reader.specs.View.{config_of, chop, front};
ghost use Rattle.reader.specs.Steps.{Moves};

use crate::asked::Asked;
use crate::scan::{Progress, is_noise, put, scan};
use crate::tally::{Why, add_count};
use frame::FRAME_LENGTH;

// What a push came to: the bytes taken and discarded, the frames collected, the bytes held. What it counted stands in the tally that it was lent.
#[derive(Clone, Copy, Debug, PartialEq, Eq)]
pub(crate) struct Moved {
    pub took: usize,
    pub lost: usize,
    pub collected: usize,
    pub held: usize,
}

// The bytes of `more` are held behind the collected frames and the bytes held there.
fn hold(frames: &mut [u8; 1105], collected: usize, held: usize, more: &[u8])
    requires { (held + length more.now ≤ 12) × (collected < 85) }
    ensures { (front held (drop (13 * collected) frames.old) ++ more.now ≡ front (held + length more.now) (drop (13 * collected) frames.new)) × (chop collected frames.old ≡ chop collected frames.new) }
{
    put(frames, FRAME_LENGTH * collected + held, more);
}

// The chunk alone.
fn direct(
    frames: &mut [u8; 1105],
    chunk: &[u8],
    asked: Asked,
    collected: usize,
    tally: &mut [u32; 7],
) -> Moved
    ensures { Moves (config_of asked) (run (config_of asked) (chop collected frames.old) chunk.now) tally.old tally.new chunk.now frames.new result × (result.lost ≤ length chunk.now) }
{
    // Bytes of noise often come few at a time: they are discarded without a scan, which passes over more of them quickly itself.
    if collected < asked.wanted && chunk.len() < 32 && is_noise(chunk) {
        add_count(tally, Why::Noise.place(), chunk.len());
        return Moved {
            took: chunk.len(),
            lost: chunk.len(),
            collected,
            held: 0,
        };
    }
    let Progress {
        at,
        lost,
        collected,
    } = scan(
        chunk,
        frames,
        asked.command,
        asked.strict,
        asked.wanted,
        collected,
        tally,
    );
    if asked.wanted <= collected {
        return Moved {
            took: at,
            lost,
            collected,
            held: 0,
        };
    }
    let rest = &chunk[at..];
    hold(frames, collected, 0, rest);
    Moved {
        took: chunk.len(),
        lost,
        collected,
        held: rest.len(),
    }
}

// The bytes held behind the collected frames, and after them up to 12 of the chunk, are put into w: 12 places are
// copied whatever is held, since a copy of known length is quicker.
fn bridge(
    frames: &[u8; 1105],
    collected: usize,
    held: usize,
    chunk: &[u8],
    w: &mut [u8; 24],
) -> usize
    requires { (held ≤ 12) × (collected < 85) }
    ensures { (take result w.new ≡ front held (drop (13 * collected) frames.now) ++ take 12 chunk.now) × (result ≤ 24) }
{
    let start = FRAME_LENGTH * collected;
    let m = chunk.len().min(12);
    put(w, 0, &frames[start..start + 12]);
    put(w, held, &chunk[..m]);
    held + m
}

// The bytes of the bridge from `at` on, up to m, are held behind the collected frames: again 12 places are copied.
fn hold_bridge(
    w: &[u8; 24],
    m: usize,
    at: usize,
    frames: &mut [u8; 1105],
    collected: usize,
) -> usize
    requires { (at ≤ 12) × (at ≤ m) × (m ≤ at + 12) × (m ≤ 24) × (collected < 85) }
    ensures { (drop at (take m w.now) ≡ front result (drop (13 * collected) frames.new)) × (chop collected frames.old ≡ chop collected frames.new) }
{
    put(frames, FRAME_LENGTH * collected, &w[at..at + 12]);
    m - at
}

// With bytes held: they and the first 12 of the chunk are judged apart, and what is left of the chunk where it lies.
fn bridged(
    frames: &mut [u8; 1105],
    held: usize,
    chunk: &[u8],
    asked: Asked,
    collected: usize,
    tally: &mut [u32; 7],
) -> Moved
    requires { (held ≤ 12) × (collected < asked.wanted) }
    ensures { Moves (config_of asked) (run (config_of asked) (chop collected frames.old) (front held (drop (13 * collected) frames.old) ++ chunk.now)) tally.old tally.new chunk.now frames.new result }
{
    // Room for the 12 bytes that are held at most, and 12 of the chunk: fixed memory, of which `m` are in use.
    let mut w = [0u8; 24];
    let m = bridge(frames, collected, held, chunk, &mut w);
    let p = scan(
        &w[..m],
        frames,
        asked.command,
        asked.strict,
        asked.wanted,
        collected,
        tally,
    );
    if p.at < held {
        let k = hold_bridge(&w, m, p.at, frames, p.collected);
        return Moved {
            took: chunk.len(),
            lost: p.lost,
            collected: p.collected,
            held: k,
        };
    }
    let seen = p.at - held;
    let q = direct(frames, &chunk[seen..], asked, p.collected, tally);
    // Two ways, one after the other: their bytes add up, and the second's frames and held bytes stand.
    Moved {
        took: seen + q.took,
        lost: p.lost + q.lost,
        collected: q.collected,
        held: q.held,
    }
}

// The chunk behind the bytes held.
pub(crate) fn advance(
    frames: &mut [u8; 1105],
    held: usize,
    chunk: &[u8],
    asked: Asked,
    collected: usize,
    tally: &mut [u32; 7],
) -> Moved
    requires { (held ≤ 12) × (0 < held → collected < asked.wanted) × (0 < held → slice_index frames.old (13 * collected) ≡ 0xA5) }
    ensures { Moves (config_of asked) (run (config_of asked) (chop collected frames.old) (front held (drop (13 * collected) frames.old) ++ chunk.now)) tally.old tally.new chunk.now frames.new result }
{
    if held == 0 {
        return direct(frames, chunk, asked, collected, tally);
    }
    if chunk.len() < 13 - held {
        hold(frames, collected, held, chunk);
        return Moved {
            took: chunk.len(),
            lost: 0,
            collected,
            held: held + chunk.len(),
        };
    }
    bridged(frames, held, chunk, asked, collected, tally)
}
