// Replies of one frame, for C: 90 to 94, and the acknowledgements. An export cannot be generic, so each is its own line; and it takes the
// sender's address and the lent buffer as two parameters, as in C (include/daly_writers.h).
ghost use Rattle.std.specs.Prelude.{◌≡◌};
ghost use Rattle.writing.specs.Replies.{soc_reply, cell_voltage_range_reply, temperature_range_reply, status_reply, acknowledgement};
ghost use Rattle.writers.specs.Meant.{cell_voltage_range_meant, temperature_range_meant, status_meant};
ghost use Rattle.writers.specs.Told.{TellsFrame, TellsMosfetStatus};

use cell_voltage_range::CellVoltageRangeCounts;
use list::ListTold;
use status::{IOState, Status};
use temperature_range::TemperatureRange;
use writing::{MosfetStatusWire, SocWire};

// The structs below have the fields of C's, and in C's order (include/daly_writers.h). The decoders' records are not laid out for C, and 94 has
// its eight states in a struct: so there are two types of the same fields, and a `From` field by field between them.
#[repr(C)]
#[derive(Clone, Copy, Debug, PartialEq, Eq)]
pub struct CellVoltageRangeWire {
    pub highest_voltage: u16,
    pub highest_cell: u8,
    pub lowest_voltage: u16,
    pub lowest_cell: u8,
}

#[repr(C)]
#[derive(Clone, Copy, Debug, PartialEq, Eq)]
pub struct TemperatureRangeWire {
    pub highest_temperature: i8,
    pub highest_sensor: u8,
    pub lowest_temperature: i8,
    pub lowest_sensor: u8,
}

#[repr(C)]
#[derive(Clone, Copy, Debug, PartialEq, Eq)]
pub struct StatusWire {
    pub cells: u8,
    pub temperature_sensors: u8,
    pub charger_running: bool,
    pub load_running: bool,
    pub di1: bool,
    pub di2: bool,
    pub di3: bool,
    pub di4: bool,
    pub do1: bool,
    pub do2: bool,
    pub do3: bool,
    pub do4: bool,
    pub cycles: u16,
}

#[unsafe(no_mangle)]
pub extern "C" fn daly_write_soc(address: u8, counts: SocWire, out: &mut [u8]) -> ListTold
    ensures { TellsFrame (soc_reply address counts) out.old result out.new }
{
    writing::write_soc(address, counts, out).into()
}

impl From<CellVoltageRangeWire> for CellVoltageRangeCounts {
    ghost from_gives = { λ counts meant. meant ≡ cell_voltage_range_meant counts };

    fn from(counts: CellVoltageRangeWire) -> Self {
        Self {
            highest_voltage: counts.highest_voltage,
            highest_cell: counts.highest_cell,
            lowest_voltage: counts.lowest_voltage,
            lowest_cell: counts.lowest_cell,
        }
    }
}

#[unsafe(no_mangle)]
pub extern "C" fn daly_write_cell_voltage_range(
    address: u8,
    counts: CellVoltageRangeWire,
    out: &mut [u8],
) -> ListTold
    ensures { TellsFrame (cell_voltage_range_reply address (cell_voltage_range_meant counts)) out.old result out.new }
{
    writing::write_cell_voltage_range(address, counts.into(), out).into()
}

impl From<TemperatureRangeWire> for TemperatureRange {
    ghost from_gives = { λ range meant. meant ≡ temperature_range_meant range };

    fn from(range: TemperatureRangeWire) -> Self {
        Self {
            highest_temperature: range.highest_temperature,
            highest_sensor: range.highest_sensor,
            lowest_temperature: range.lowest_temperature,
            lowest_sensor: range.lowest_sensor,
        }
    }
}

#[unsafe(no_mangle)]
pub extern "C" fn daly_write_temperature_range(
    address: u8,
    range: TemperatureRangeWire,
    out: &mut [u8],
) -> ListTold
    ensures { TellsFrame (temperature_range_reply address (temperature_range_meant range)) out.old result out.new }
{
    writing::write_temperature_range(address, range.into(), out).into()
}

#[unsafe(no_mangle)]
pub extern "C" fn daly_write_mosfet_status(
    address: u8,
    counts: MosfetStatusWire,
    out: &mut [u8],
) -> ListTold
    ensures { TellsMosfetStatus address counts out.old result out.new }
{
    writing::write_mosfet_status(address, counts, out).into()
}

impl From<StatusWire> for Status {
    ghost from_gives = { λ status meant. meant ≡ status_meant status };

    fn from(status: StatusWire) -> Self {
        let states = IOState {
            di1: status.di1,
            di2: status.di2,
            di3: status.di3,
            di4: status.di4,
            do1: status.do1,
            do2: status.do2,
            do3: status.do3,
            do4: status.do4,
        };
        Self {
            cells: status.cells,
            temperature_sensors: status.temperature_sensors,
            charger_running: status.charger_running,
            load_running: status.load_running,
            states,
            cycles: status.cycles,
        }
    }
}

#[unsafe(no_mangle)]
pub extern "C" fn daly_write_status(address: u8, status: StatusWire, out: &mut [u8]) -> ListTold
    ensures { TellsFrame (status_reply address (status_meant status)) out.old result out.new }
{
    writing::write_status(address, status.into(), out).into()
}

#[unsafe(no_mangle)]
pub extern "C" fn daly_write_set_discharge_mosfet(address: u8, out: &mut [u8]) -> ListTold
    ensures { TellsFrame (acknowledgement address 0xD9) out.old result out.new }
{
    writing::write_set_discharge_mosfet(address, out).into()
}

#[unsafe(no_mangle)]
pub extern "C" fn daly_write_set_charge_mosfet(address: u8, out: &mut [u8]) -> ListTold
    ensures { TellsFrame (acknowledgement address 0xDA) out.old result out.new }
{
    writing::write_set_charge_mosfet(address, out).into()
}

#[unsafe(no_mangle)]
pub extern "C" fn daly_write_set_soc(address: u8, out: &mut [u8]) -> ListTold
    ensures { TellsFrame (acknowledgement address 0x21) out.old result out.new }
{
    writing::write_set_soc(address, out).into()
}
