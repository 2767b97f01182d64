// What `readreply` prints after the input's end, as text in a lent buffer: one line of counts, then the reply's fields or `refused N`.
#![tactic(auto)]

ghost use Rattle.text.specs.Text.{Put};
ghost use Rattle.text.specs.Putting.{Puts};
ghost use Rattle.report.specs.Lines.{refusal_line};
ghost use Rattle.report.specs.Report.{counts_text, answer_text, report_text};

use fields::put_reply;
use frame::Refusal;
use reading::{CellVoltageRangeCounts, MosfetStatusCounts, SocCounts, Status, TemperatureRange};
use text::Text;

mod fields;
mod lists;

// What a reader counted over the stream, the bytes it holds and the frames it has collected; then why bytes were discarded.
#[derive(Clone, Copy, Debug, PartialEq, Eq)]
pub struct Tally {
    pub taken: u32,
    pub held: usize,
    pub frames: usize,
    pub discarded: u32,
    pub cleared: u32,
    pub noise: u32,
    pub sum: u32,
    pub command: u32,
    pub number: u32,
    pub echo: u32,
}

impl Tally {
    // The line of counts.
    fn put(self, text: &mut Text, command: u8)
        ensures { Puts text.old (counts_text command self) text.new }
    {
        text.put_word(b"reply ");
        text.put_hex2(command);
        text.put_field(b" taken", self.taken);
        text.put_field(b" held", self.held);
        text.put_field(b" frames", self.frames);
        text.put_field(b" discarded", self.discarded);
        text.put_field(b" cleared", self.cleared);
        text.put_field(b" noise", self.noise);
        text.put_field(b" sum", self.sum);
        text.put_field(b" command", self.command);
        text.put_field(b" number", self.number);
        text.put_field(b" echo", self.echo);
        text.put_byte(b'\n');
    }
}

pub(crate) fn put_refusal(text: &mut Text, refusal: Refusal)
    ensures { Puts text.old (refusal_line refusal) text.new }
{
    text.put_line(b"refused", u8::from(refusal));
}

// What the decoder of the command answers on the reply. A `match`: a table of functions would need one form for all, and three alone take a count.
fn put_answer(text: &mut Text, command: u8, count: u8, reply: &[u8])
    ensures { Puts text.old (answer_text command count reply.now) text.new }
{
    match command {
        frame::command::SOC => put_reply::<SocCounts>(text, reply),
        frame::command::CELL_VOLTAGE_RANGE => put_reply::<CellVoltageRangeCounts>(text, reply),
        frame::command::TEMPERATURE_RANGE => put_reply::<TemperatureRange>(text, reply),
        frame::command::MOSFET_STATUS => put_reply::<MosfetStatusCounts>(text, reply),
        frame::command::STATUS => put_reply::<Status>(text, reply),
        frame::command::CELL_VOLTAGES => lists::put_cells(text, reply, count),
        frame::command::CELL_TEMPERATURES => lists::put_sensors(text, reply, count),
        frame::command::CELL_BALANCE_STATE => lists::put_balance(text, reply, count),
        frame::command::ERROR_CODE => lists::put_faults(text, reply),
        _ => put_refusal(text, Refusal::UnknownCommand),
    }
}

// `reply` is what the reader has collected, `status` what its last push said: 2, or any other number. Past the buffer's end nothing
// is written; the answer is the whole text's length. Both are bare numbers, since the clause is of every status and of a text that
// `out` cuts, of which the length alone tells the rest.
pub fn report(
    command: u8,
    count: u8,
    tally: Tally,
    reply: &[u8],
    status: u8,
    out: &mut [u8],
) -> usize
    ensures { Put out.old 0 (report_text command count tally reply.now status) out.new result }
{
    let mut text = Text { out, at: 0 };
    tally.put(&mut text, command);
    if status == u8::from(Refusal::UnexpectedFrame) {
        put_refusal(&mut text, Refusal::UnexpectedFrame);
    } else {
        put_answer(&mut text, command, count, reply);
    }
    text.at
}
