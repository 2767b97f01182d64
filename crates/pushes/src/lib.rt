// The push in the other forms that it has, for C: by value, its core on lent frames, and on a lent reader by way of the push by value.
// They have the statement of the one that controllers call, `daly_reader_push` of the crate `daly`.
#![tactic(auto)]

ghost use Rattle.reader.specs.View.{Answered};
ghost use Rattle.reader.specs.Lent.{AnsweredLent};

use reader::{Counts, FrameReader, Pushed, Said, Told};

#[unsafe(no_mangle)]
pub extern "C" fn daly_push_by_value(reader: FrameReader, chunk: &[u8]) -> Pushed
    ensures { Answered reader.frames reader.counts chunk.now result.said.status result.said.took result.reader.counts result.reader.frames }
{
    reader.push(chunk)
}

// The reader's frames stay with the caller, and its numbers go in and come back by value.
#[unsafe(no_mangle)]
pub extern "C" fn daly_push_into(frames: &mut [u8; 1105], counts: Counts, chunk: &[u8]) -> Told
    ensures { Answered frames.old counts chunk.now result.said.status result.said.took result.counts frames.new }
{
    reader::push_counts(frames, counts, chunk)
}

// "push also exists as the Rust has it, on a reader lent by the caller": the push by value, and the reader that it answers is stored.
#[unsafe(no_mangle)]
pub extern "C" fn daly_push_lent(reader: &mut FrameReader, chunk: &[u8]) -> Said
    ensures { AnsweredLent reader.old chunk.now result reader.new }
{
    let p = FrameReader::push(*reader, chunk);
    *reader = p.reader;
    p.said
}
