// Refusal 8, the mark and the status: what a push tests before it moves and books afterwards. The mark is a fact that is reckoned with, and chooses no step.
ghost use Rattle.std.specs.Prelude.{◌≡◌, ℕ, ◌+◌, ◌<◌, ◌≤◌, false, not, ◌&&◌, ◌||◌, nat_lt, slice_index, if◌then◌else◌};
ghost use Rattle.rules.specs.Reader.{bad, state_check, all_of};
ghost use Rattle.reader.specs.View.{view, counted, five_in};

use crate::Standing;
use crate::tally::discarded_in;
use frame::Refusal;

// All bytes discarded, modulo 2^32; and that each count of the tally is below 2^32.
pub(crate) fn all_of(tally: &[u32; 7]) -> u32
    ensures { (result ≡ all_of (five_in tally.now)) × ((i : ℕ) → slice_index tally.now i < 4294967296) }
{
    discarded_in(tally).all()
}

// A count over 512 without the mark.
fn unmarked(discarded: u32, mark: bool) -> bool
    ensures { result ≡ (nat_lt 512 discarded && not mark) }
{
    512 < discarded && !mark
}

// Whether no push can have made the reader. Whether bytes are held is asked early: then fewer tests are left.
pub(crate) fn is_bad(frames: &[u8; 1105], tally: &[u32; 7], c: Standing) -> bool
    ensures { result ≡ bad (view (counted c tally.now) frames.now) }
{
    let before = all_of(tally);
    if 85 < c.wanted {
        return true;
    }
    if c.held == 0 {
        if c.wanted < c.collected {
            return true;
        }
        return unmarked(before, c.mark);
    }
    if 12 < c.held {
        return true;
    }
    if c.wanted <= c.collected {
        return true;
    }
    if frames[frame::FRAME_LENGTH * c.collected] != frame::START_BYTE {
        return true;
    }
    unmarked(before, c.mark)
}

// Refusal 8, for those that ask. A push asks `is_bad` itself: a `Result` there missed the bar of speed (+4 % of the instructions at single bytes).
pub(crate) fn state_check(frames: &[u8; 1105], tally: &[u32; 7], c: Standing) -> Result<(), Refusal>
    ensures { result ≡ state_check (view (counted c tally.now) frames.now) }
{
    if is_bad(frames, tally, c) {
        return Err(Refusal::BadState);
    }
    Ok(())
}

// The mark after a push that discarded `lost` bytes; no sum here can wrap.
pub(crate) fn passed(mark: bool, before: u32, lost: usize) -> bool
    requires { mark ≡ false → before ≤ 512 }
    ensures { result ≡ (mark || nat_lt 512 (before + lost)) }
{
    if mark {
        return true;
    }
    512 - (before as usize) < lost
}

// What a push says: over 512 bytes discarded, or nothing. A number, as C reads it (`Said`): there is nothing beside it to be `Ok` or `Err` of.
pub(crate) fn status_of(mark: bool) -> u8
    ensures { result ≡ (if mark then 2 else 0) }
{
    if mark {
        Refusal::UnexpectedFrame.into()
    } else {
        0
    }
}
