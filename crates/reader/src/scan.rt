// The rules on the bytes of a slice, one turn after the other.
ghost use Rattle.std.specs.Prelude.{◌≡◌, ◌+◌, ◌≤◌, ◌==◌, ◌||◌, true, false, not, length};
ghost use Rattle.std.specs.List.{position, list_all, prefix_len, fold};
ghost use Rattle.std.proofs.Math.Seq.{paste};
ghost use Rattle.rules.specs.Rules.{sum_right};
ghost use Rattle.rules.specs.Ledger.{run};
ghost use Rattle.reader.specs.View.{config, chop};
ghost use Rattle.reader.specs.Steps.{Ran, noise_in};

use crate::asked::Asked;
use crate::tally::{CLEARED, Why, add_count};
use frame::{FRAME_LENGTH, START_BYTE};

// Where a scan has come to: the bytes of the slice that it is done with, those discarded, and the frames collected.
#[derive(Clone, Copy, Debug, PartialEq, Eq)]
pub(crate) struct Progress {
    pub at: usize,
    pub lost: usize,
    pub collected: usize,
}

// Whether no byte is A5: for a few bytes, of which each is looked at until one is.
pub(crate) fn is_noise(s: &[u8]) -> bool
    ensures { result ≡ list_all (λ byte. not (byte == 0xA5)) s.now }
{
    s.iter().all(|&byte| byte != START_BYTE)
}

// The same of 32 bytes, all of which are looked at, so that the compiler can look at many at once.
fn is_quiet(block: &[u8; 32]) -> bool
    ensures { result ≡ not (fold (λ found byte. found || byte == 0xA5) false block.now) }
{
    !block
        .iter()
        .fold(false, |found, &byte| found | (byte == START_BYTE))
}

// The place of the first A5.
fn start_in(s: &[u8]) -> Option<usize>
    ensures { result ≡ position (λ byte. byte == 0xA5) s.now }
{
    s.iter().position(|&byte| byte == START_BYTE)
}

// How many blocks come before the first that has an A5.
fn quiet_blocks(blocks: &[[u8; 32]]) -> usize
    ensures { result ≡ prefix_len (λ block. not (fold (λ found byte. found || byte == 0xA5) false block)) blocks.now }
{
    blocks.iter().take_while(|block| is_quiet(block)).count()
}

// How many bytes come before it: 32 are passed at once, while none of them is one.
fn noise_len(s: &[u8]) -> usize
    ensures { (result ≡ noise_in s.now) × (result ≤ length s.now) }
{
    let (blocks, _) = s.as_chunks::<32>();
    let quiet = 32 * quiet_blocks(blocks);
    let rest = &s[quiet..];
    quiet + start_in(rest).unwrap_or(rest.len())
}

// Bytes are copied to a place of a slice: a place, since the promise is of the whole (`paste`), as the callers' are, which speak of what stands before it, too.
pub(crate) fn put(to: &mut [u8], at: usize, bytes: &[u8])
    requires { at + length bytes.now ≤ length to.old }
    ensures { to.new ≡ paste to.old at bytes.now (length bytes.now) }
{
    // Often there is one byte, or none: quicker than a copy of any length, which is a call of C's memmove.
    match bytes {
        [] => {}
        [byte] => to[at] = *byte,
        _ => to[at..at + bytes.len()].copy_from_slice(bytes),
    }
}

// Whether its sum is right.
fn is_summed(frame: &[u8; 13]) -> bool
    ensures { result ≡ sum_right frame.now }
{
    frame[12] == frame::calc_crc(frame)
}

// All turns on s. What was asked comes in parts: a struct would be stored for each call, which missed the bar of speed (+12 instructions a push).
// The loop goes on by 1, by 13 or to the next start byte, as the bytes say: no iterator of std does. `strict` is the mode, a flag (document 02, K1).
pub(crate) fn scan(
    s: &[u8],
    frames: &mut [u8; 1105],
    command: u8,
    strict: bool,
    wanted: usize,
    collected: usize,
    tally: &mut [u32; 7],
) -> Progress
    requires { wanted ≤ 85 }
    ensures { Ran (run (config command wanted strict) (chop collected frames.old) s.now) tally.old tally.new s.now frames.new result }
{
    let asked = Asked {
        command,
        strict,
        wanted,
    };
    let mut at = 0;
    let mut lost = 0;
    let mut have = collected;
    while at < s.len() && have < wanted {
        let rest = &s[at..];
        if rest[0] != START_BYTE {
            let n = noise_len(rest);
            add_count(tally, Why::Noise.place(), n);
            lost += n;
            at += n;
            continue;
        }
        let Some(frame) = rest.first_chunk::<13>() else {
            break;
        };
        // "wrong sum: one byte is discarded"
        if !is_summed(frame) {
            add_count(tally, Why::Sum.place(), 1);
            lost += 1;
            at += 1;
            continue;
        }
        match asked.judge(frame, have) {
            Ok(()) => {
                let k = asked.staying(frame, have);
                // An array of its own, since the compiler must fear that the two overlap.
                let own = *frame;
                put(frames, FRAME_LENGTH * k, &own);
                add_count(tally, CLEARED, have - k);
                have = k + 1;
                at += FRAME_LENGTH;
            }
            Err(why) => {
                add_count(tally, why.place(), FRAME_LENGTH);
                lost += FRAME_LENGTH;
                at += FRAME_LENGTH;
            }
        }
    }
    Progress {
        at,
        lost,
        collected: have,
    }
}
