// The reader, for C, where the caller has it: a `&FrameReader` and a `&mut FrameReader` are pointers, and no call copies the frames but the one that copies them out.
ghost use Rattle.std.specs.Prelude.{◌≡◌};
ghost use Rattle.rules.specs.Reader.{all_of};
ghost use Rattle.reader.specs.View.{reasons};
ghost use Rattle.reader.specs.Lent.{TurnedLent, OpenedLent, seen};
ghost use Rattle.reader.specs.Told.{missing_told, complete_told};
ghost use Rattle.daly.specs.Lists.{TellsCollected};

use list::ListTold;
use reader::tally::Discarded;
use reader::{
    Completed, FrameReader, Missing, Standing, Turn, completed_of, copy_from, missing_of,
    open_counts, turn_into,
};

// A new reader, into the caller's: its numbers, and an array of zeros. It answers 0, 7 or 6, the number that C reads: a refusal leaves a reader, too, "all zero".
// `reply_size` is the reply's, no place in the request; `strict` is the mode of document 02 (K1), C's bool.
#[unsafe(no_mangle)]
pub extern "C" fn daly_reader_new(
    reader: &mut FrameReader,
    request: &[u8],
    reply_size: usize,
    strict: bool,
) -> u8
    ensures { OpenedLent request.now reply_size strict result reader.new }
{
    let o = open_counts(request, reply_size, strict);
    reader.counts = o.counts;
    reader.frames = [0u8; 1105];
    o.number
}

// A push on a reader that the caller lends, in place: its frames and its tally are lent on; no byte of the frames is copied that is not collected or held, and no count at all. It tells what is then missing, so that a turn of a loop has one call. The numbers that no push changes are not stored again.
// Field by field: `Standing::from` takes the counts with their tally, and missed the bar of speed (up to 8 in a hundred more instructions at single bytes).
#[unsafe(no_mangle)]
pub extern "C" fn daly_reader_push(reader: &mut FrameReader, chunk: &[u8]) -> Turn
    ensures { TurnedLent reader.old chunk.now result reader.new }
{
    let c = Standing {
        command: reader.counts.command,
        mark: reader.counts.mark,
        strict: reader.counts.strict,
        wanted: reader.counts.wanted,
        collected: reader.counts.collected,
        held: reader.counts.held,
    };
    let t = turn_into(&mut reader.frames, &mut reader.counts.tally, c, chunk);
    reader.counts.mark = t.standing.mark;
    reader.counts.collected = t.standing.collected;
    reader.counts.held = t.standing.held;
    t.turn
}

// All bytes discarded, for whatever reason: the one count of document 01.
#[unsafe(no_mangle)]
pub extern "C" fn daly_discarded_all(discarded: Discarded) -> u32
    ensures { result ≡ all_of (reasons discarded) }
{
    discarded.all()
}

// One call each, for C, which has the two names.
#[unsafe(no_mangle)]
pub extern "C" fn daly_reader_missing(reader: &FrameReader) -> Missing
    ensures { result ≡ missing_told (seen reader.now) }
{
    missing_of(&reader.frames, reader.counts)
}

#[unsafe(no_mangle)]
pub extern "C" fn daly_reader_is_complete(reader: &FrameReader) -> Completed
    ensures { result ≡ complete_told (seen reader.now) }
{
    completed_of(&reader.frames, reader.counts)
}

#[unsafe(no_mangle)]
pub extern "C" fn daly_reader_copy_out(reader: &FrameReader, out: &mut [u8]) -> ListTold
    ensures { TellsCollected (seen reader.now) out.old result out.new }
{
    copy_from(&reader.frames, reader.counts, out).into()
}
