// The one-frame replies: a line for each field, in the order of the source, or the refusal.
ghost use Rattle.std.specs.Prelude.{ℕ, List};
ghost use Rattle.text.specs.Putting.{Puts};
ghost use Rattle.report.specs.Lines.{told};
ghost use Rattle.report.specs.Fields.{soc_lines, cell_voltage_range_lines, temperature_range_lines};
ghost use Rattle.report.specs.Fields.{mosfet_status_lines, states_lines, status_lines};

use frame::Reply;
use reading::{
    CellVoltageRangeCounts, IOState, MosfetStatusCounts, SocCounts, Status, TemperatureRange,
};
use text::Text;

// What is printed on lines of its own.
pub(crate) trait Lines: Copy {
    ghost lines: { Self → List ℕ };

    fn put(self, text: &mut Text)
        ensures { Puts text.old (lines self) text.new };
}

pub(crate) fn put_reply<R: Reply + Lines>(text: &mut Text, reply: &[u8])
    ensures { Puts text.old (told R.lines (R.decoded reply.now)) text.new }
{
    match R::decode(reply) {
        Ok(reading) => reading.put(text),
        Err(refusal) => crate::put_refusal(text, refusal),
    }
}

impl Lines for SocCounts {
    ghost lines = { soc_lines };

    fn put(self, text: &mut Text) {
        text.put_line(b"total_voltage", self.total_voltage);
        text.put_line(b"current", self.current);
        text.put_line(b"soc_percent", self.soc_percent);
    }
}

// Alike by chance with the temperatures: four lines of other names.
impl Lines for CellVoltageRangeCounts {
    ghost lines = { cell_voltage_range_lines };

    fn put(self, text: &mut Text) {
        text.put_line(b"highest_voltage", self.highest_voltage);
        text.put_line(b"highest_cell", self.highest_cell);
        text.put_line(b"lowest_voltage", self.lowest_voltage);
        text.put_line(b"lowest_cell", self.lowest_cell);
    }
}

impl Lines for TemperatureRange {
    ghost lines = { temperature_range_lines };

    fn put(self, text: &mut Text) {
        text.put_line(b"highest_temperature", self.highest_temperature);
        text.put_line(b"highest_sensor", self.highest_sensor);
        text.put_line(b"lowest_temperature", self.lowest_temperature);
        text.put_line(b"lowest_sensor", self.lowest_sensor);
    }
}

// The capacity is the exact count of the wire.
impl Lines for MosfetStatusCounts {
    ghost lines = { mosfet_status_lines };

    fn put(self, text: &mut Text) {
        text.put_line(b"mode", u8::from(self.mode));
        text.put_line(b"charging_mosfet", self.charging_mosfet);
        text.put_line(b"discharging_mosfet", self.discharging_mosfet);
        text.put_line(b"bms_cycles", self.bms_cycles);
        text.put_line(b"capacity_ah", self.capacity_ah);
    }
}

impl Lines for IOState {
    ghost lines = { states_lines };

    fn put(self, text: &mut Text) {
        text.put_line(b"di1", self.di1);
        text.put_line(b"di2", self.di2);
        text.put_line(b"di3", self.di3);
        text.put_line(b"di4", self.di4);
        text.put_line(b"do1", self.do1);
        text.put_line(b"do2", self.do2);
        text.put_line(b"do3", self.do3);
        text.put_line(b"do4", self.do4);
    }
}

impl Lines for Status {
    ghost lines = { status_lines };

    fn put(self, text: &mut Text) {
        text.put_line(b"cells", self.cells);
        text.put_line(b"temperature_sensors", self.temperature_sensors);
        text.put_line(b"charger_running", self.charger_running);
        text.put_line(b"load_running", self.load_running);
        self.states.put(text);
        text.put_line(b"cycles", self.cycles);
    }
}
