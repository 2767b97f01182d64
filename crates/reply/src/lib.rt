// `readreply` without its reading and writing: the input's bytes, in whatever chunks they come, and the text after the last.
#![tactic(auto)]

ghost use Rattle.std.specs.Prelude.{◌≡◌, length, ◌*◌, ◌≤◌, min, cond, false};
ghost use Rattle.text.specs.Text.{Put};
ghost use Rattle.text.specs.Putting.{Puts};
ghost use Rattle.reader.specs.Told.{fresh_counts};
ghost use Rattle.reader.specs.View.{view};
ghost use Rattle.report.specs.Lines.{refusal_line};
ghost use Rattle.reply.specs.Output.{known, reply_size_for, wanted_for, reply_text};
ghost use Rattle.reply.specs.Input.{begun, state_of, streamed, from_second, pushed, printed, tally_of, HasSeven};

use frame::Refusal;
use reader::Counts;
use reader::tally::{CLEARED, TAKEN, discarded_in};
use report::Tally;
use text::Text;

// The first two bytes, and the numbers of the reader of what follows; its frames are lent beside it, since an
// input that had them would copy 1,105 bytes with each chunk.
#[derive(Clone, Copy, Debug, PartialEq, Eq)]
pub struct Question {
    pub command: u8,
    pub count: u8,
    pub counts: Counts,
}

// How far the input has come: nothing, its first byte, or both of the first two and what follows.
#[derive(Clone, Copy, Debug, Default, PartialEq, Eq)]
pub enum Input {
    #[default]
    Nothing,
    Command(u8),
    Stream(Question),
}

fn is_known(command: u8) -> bool
    ensures { result ≡ known command }
{
    (frame::command::SOC..=frame::command::ERROR_CODE).contains(&command)
}

fn reply_size(command: u8, count: u8) -> usize
    ensures { result ≡ reply_size_for command count }
{
    match command {
        frame::command::CELL_VOLTAGES => list::cell_voltages_reply_size(count),
        frame::command::CELL_TEMPERATURES => list::cell_temperatures_reply_size(count),
        _ => frame::FRAME_LENGTH,
    }
}

fn fresh(command: u8, count: u8) -> Counts
    ensures { result ≡ fresh_counts command (wanted_for command count) false }
{
    let wanted = reply_size(command, count).div_ceil(frame::FRAME_LENGTH);
    reader::fresh_counts(command, wanted, false)
}

// Nothing has come yet.
pub fn begin() -> Input
    ensures { result ≡ begun }
{
    Input::default()
}

// Bytes behind the first two: the reader's. Here and below, that a tally has seven counts: it is the public promise of `push`, which hands these on.
fn push_stream(frames: &mut [u8; 1105], asked: Question, stream: &[u8]) -> Input
    ensures frames_after { state_of result frames.new ≡ streamed asked.command asked.count (view asked.counts frames.old) stream.now }
    ensures tally_len { HasSeven result }
{
    if !is_known(asked.command) {
        return Input::Stream(asked);
    }
    let told = reader::push_counts(frames, asked.counts, stream);
    Input::Stream(Question {
        counts: told.counts,
        ..asked
    })
}

// Bytes behind the first: the count, then the reader's.
fn push_count(frames: &mut [u8; 1105], command: u8, chunk: &[u8]) -> Input
    ensures frames_after { state_of result frames.new ≡ from_second command chunk.now }
    ensures tally_len { HasSeven result }
{
    let Some((&count, stream)) = chunk.split_first() else {
        return Input::Command(command);
    };
    let counts = fresh(command, count);
    let asked = Question {
        command,
        count,
        counts,
    };
    push_stream(frames, asked, stream)
}

// The next bytes of the input.
pub fn push(frames: &mut [u8; 1105], input: Input, chunk: &[u8]) -> Input
    ensures frames_after { state_of result frames.new ≡ pushed (state_of input frames.old) chunk.now }
    ensures tally_len { HasSeven result }
{
    match input {
        Input::Stream(asked) => push_stream(frames, asked, chunk),
        Input::Command(command) => push_count(frames, command, chunk),
        Input::Nothing => match chunk.split_first() {
            None => Input::Nothing,
            Some((&command, rest)) => push_count(frames, command, rest),
        },
    }
}

// Of the lent array.
fn collected_bytes(collected: usize) -> usize
    ensures { result ≡ min (13 * collected) 1105 }
{
    frame::FRAME_LENGTH * collected.min(85)
}

// A number, since `report` takes one: its clause is of every status. The reader's own is private to it: a public one would be a promise more for one line.
fn status_of(mark: bool) -> u8
    ensures { result ≡ cond mark 2 0 }
{
    if mark {
        u8::from(Refusal::UnexpectedFrame)
    } else {
        0
    }
}

// Neither type is of this crate, so that this is no `From`. Field by field: `report` does not stand on the reader, so that
// its tally has the five reasons again.
fn tally_of(counts: Counts) -> Tally
    ensures { result ≡ tally_of counts }
{
    let discarded = discarded_in(&counts.tally);
    Tally {
        taken: counts.tally[TAKEN],
        held: counts.held,
        frames: counts.collected,
        discarded: discarded.all(),
        cleared: counts.tally[CLEARED],
        noise: discarded.noise,
        sum: discarded.sum,
        command: discarded.command,
        number: discarded.number,
        echo: discarded.echo,
    }
}

// What the reader has collected stands at the front of its frames.
fn print_reply(frames: &[u8; 1105], asked: Question, out: &mut [u8]) -> usize
    ensures { Put out.old 0 (reply_text asked.command asked.count (view asked.counts frames.now)) out.new result }
{
    report::report(
        asked.command,
        asked.count,
        tally_of(asked.counts),
        &frames[..collected_bytes(asked.counts.collected)],
        status_of(asked.counts.mark),
        out,
    )
}

// Refusals 7 and 10 stand alone, in a text of their own; that of `report` goes on in one.
fn put_refusal(out: &mut [u8], refusal: Refusal) -> usize
    ensures { Put out.old 0 (refusal_line refusal) out.new result }
{
    let mut text = Text { out, at: 0 };
    text.put_line(b"refused", u8::from(refusal));
    text.at
}

// The text after the last byte, and how long it is: 8,192 bytes hold every one whole. A length, as the two above and `report` answer it, since the clause
// is also of a buffer that cuts the text.
pub fn print(frames: &[u8; 1105], input: Input, out: &mut [u8]) -> usize
    ensures put { Put out.old 0 (printed (state_of input frames.now)) out.new result }
    ensures upper_bound { result ≤ 8192 }
{
    match input {
        Input::Nothing | Input::Command(_) => put_refusal(out, Refusal::RequestTooShort),
        Input::Stream(asked) => {
            if !is_known(asked.command) {
                return put_refusal(out, Refusal::UnknownCommand);
            }
            print_reply(frames, asked, out)
        }
    }
}
