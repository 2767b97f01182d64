// What C is told of a one-frame reply: the number, and the record, which is all zero where the number is not.
ghost use Rattle.std.specs.Prelude.{◌≡◌};
ghost use Rattle.daly.specs.Readings.{soc_told, soc_counts_told, cell_voltage_range_told, cell_voltage_range_counts_told};
ghost use Rattle.daly.specs.Readings.{temperature_range_told, mosfet_status_told, mosfet_status_counts_told, status_told};
ghost use Rattle.soc.specs.Soc.{decoded_soc, decoded_soc_counts};
ghost use Rattle.cell_voltage_range.specs.CellVoltageRange.{decoded_cell_voltage_range, decoded_cell_voltage_range_counts};
ghost use Rattle.temperature_range.specs.TemperatureRange.{decoded_temperature_range};
ghost use Rattle.mosfet_status.specs.MosfetStatus.{decoded_mosfet_status, decoded_mosfet_status_counts};
ghost use Rattle.status.specs.Status.{decoded_status};

use frame::Refusal;
use reading::{
    CellVoltageRange, CellVoltageRangeCounts, MosfetStatus, MosfetStatusCounts, Reply, Soc,
    SocCounts, Status, TemperatureRange,
};

// The structs below have the fields of C's, and in C's order (include/daly.h): so a refusal is a number before them, a record of counts a type of
// its own, and a mode a number.
#[repr(C)]
#[derive(Clone, Copy, Debug, Default, PartialEq)]
pub struct SocTold {
    pub number: u8,
    pub total_voltage: f32,
    pub current: f32,
    pub soc_percent: f32,
}

#[repr(C)]
#[derive(Clone, Copy, Debug, Default, PartialEq, Eq)]
pub struct SocCountsTold {
    pub number: u8,
    pub total_voltage: u16,
    pub current: i32,
    pub soc_percent: u16,
}

#[repr(C)]
#[derive(Clone, Copy, Debug, Default, PartialEq)]
pub struct CellVoltageRangeTold {
    pub number: u8,
    pub highest_voltage: f32,
    pub highest_cell: u8,
    pub lowest_voltage: f32,
    pub lowest_cell: u8,
}

#[repr(C)]
#[derive(Clone, Copy, Debug, Default, PartialEq, Eq)]
pub struct CellVoltageRangeCountsTold {
    pub number: u8,
    pub highest_voltage: u16,
    pub highest_cell: u8,
    pub lowest_voltage: u16,
    pub lowest_cell: u8,
}

#[repr(C)]
#[derive(Clone, Copy, Debug, Default, PartialEq, Eq)]
pub struct TemperatureRangeTold {
    pub number: u8,
    pub highest_temperature: i8,
    pub highest_sensor: u8,
    pub lowest_temperature: i8,
    pub lowest_sensor: u8,
}

#[repr(C)]
#[derive(Clone, Copy, Debug, Default, PartialEq)]
pub struct MosfetStatusTold {
    pub number: u8,
    pub mode: u8,
    pub charging_mosfet: bool,
    pub discharging_mosfet: bool,
    pub bms_cycles: u8,
    pub capacity_ah: f32,
}

#[repr(C)]
#[derive(Clone, Copy, Debug, Default, PartialEq, Eq)]
pub struct MosfetStatusCountsTold {
    pub number: u8,
    pub mode: u8,
    pub charging_mosfet: bool,
    pub discharging_mosfet: bool,
    pub bms_cycles: u8,
    pub capacity_ah: u32,
}

#[repr(C)]
#[derive(Clone, Copy, Debug, Default, PartialEq, Eq)]
pub struct StatusTold {
    pub number: u8,
    pub cells: u8,
    pub temperature_sensors: u8,
    pub charger_running: bool,
    pub load_running: bool,
    pub di1: bool,
    pub di2: bool,
    pub di3: bool,
    pub di4: bool,
    pub do1: bool,
    pub do2: bool,
    pub do3: bool,
    pub do4: bool,
    pub cycles: u16,
}

// Field by field, and an impl for each struct: all of them at once, `impl<R, T: From<R>> From<Result<R, Refusal>> for T`, is none that Rust allows.
impl From<Result<Soc, Refusal>> for SocTold {
    ghost from_gives = { λ answer told. told ≡ soc_told answer };

    fn from(answer: Result<Soc, Refusal>) -> SocTold {
        match answer {
            Ok(soc) => SocTold {
                number: 0,
                total_voltage: soc.total_voltage,
                current: soc.current,
                soc_percent: soc.soc_percent,
            },
            Err(refusal) => SocTold {
                number: refusal.into(),
                ..SocTold::default()
            },
        }
    }
}

impl From<Result<SocCounts, Refusal>> for SocCountsTold {
    ghost from_gives = { λ answer told. told ≡ soc_counts_told answer };

    fn from(answer: Result<SocCounts, Refusal>) -> SocCountsTold {
        match answer {
            Ok(counts) => SocCountsTold {
                number: 0,
                total_voltage: counts.total_voltage,
                current: counts.current,
                soc_percent: counts.soc_percent,
            },
            Err(refusal) => SocCountsTold {
                number: refusal.into(),
                ..SocCountsTold::default()
            },
        }
    }
}

impl From<Result<CellVoltageRange, Refusal>> for CellVoltageRangeTold {
    ghost from_gives = { λ answer told. told ≡ cell_voltage_range_told answer };

    fn from(answer: Result<CellVoltageRange, Refusal>) -> CellVoltageRangeTold {
        match answer {
            Ok(range) => CellVoltageRangeTold {
                number: 0,
                highest_voltage: range.highest_voltage,
                highest_cell: range.highest_cell,
                lowest_voltage: range.lowest_voltage,
                lowest_cell: range.lowest_cell,
            },
            Err(refusal) => CellVoltageRangeTold {
                number: refusal.into(),
                ..CellVoltageRangeTold::default()
            },
        }
    }
}

impl From<Result<CellVoltageRangeCounts, Refusal>> for CellVoltageRangeCountsTold {
    ghost from_gives = { λ answer told. told ≡ cell_voltage_range_counts_told answer };

    fn from(answer: Result<CellVoltageRangeCounts, Refusal>) -> CellVoltageRangeCountsTold {
        match answer {
            Ok(millivolts) => CellVoltageRangeCountsTold {
                number: 0,
                highest_voltage: millivolts.highest_voltage,
                highest_cell: millivolts.highest_cell,
                lowest_voltage: millivolts.lowest_voltage,
                lowest_cell: millivolts.lowest_cell,
            },
            Err(refusal) => CellVoltageRangeCountsTold {
                number: refusal.into(),
                ..CellVoltageRangeCountsTold::default()
            },
        }
    }
}

impl From<Result<TemperatureRange, Refusal>> for TemperatureRangeTold {
    ghost from_gives = { λ answer told. told ≡ temperature_range_told answer };

    fn from(answer: Result<TemperatureRange, Refusal>) -> TemperatureRangeTold {
        match answer {
            Ok(degrees) => TemperatureRangeTold {
                number: 0,
                highest_temperature: degrees.highest_temperature,
                highest_sensor: degrees.highest_sensor,
                lowest_temperature: degrees.lowest_temperature,
                lowest_sensor: degrees.lowest_sensor,
            },
            Err(refusal) => TemperatureRangeTold {
                number: refusal.into(),
                ..TemperatureRangeTold::default()
            },
        }
    }
}

impl From<Result<MosfetStatus, Refusal>> for MosfetStatusTold {
    ghost from_gives = { λ answer told. told ≡ mosfet_status_told answer };

    fn from(answer: Result<MosfetStatus, Refusal>) -> MosfetStatusTold {
        match answer {
            Ok(mosfet) => MosfetStatusTold {
                number: 0,
                mode: mosfet.mode.into(),
                charging_mosfet: mosfet.charging_mosfet,
                discharging_mosfet: mosfet.discharging_mosfet,
                bms_cycles: mosfet.bms_cycles,
                capacity_ah: mosfet.capacity_ah,
            },
            Err(refusal) => MosfetStatusTold {
                number: refusal.into(),
                ..MosfetStatusTold::default()
            },
        }
    }
}

impl From<Result<MosfetStatusCounts, Refusal>> for MosfetStatusCountsTold {
    ghost from_gives = { λ answer told. told ≡ mosfet_status_counts_told answer };

    fn from(answer: Result<MosfetStatusCounts, Refusal>) -> MosfetStatusCountsTold {
        match answer {
            Ok(counts) => MosfetStatusCountsTold {
                number: 0,
                mode: counts.mode.into(),
                charging_mosfet: counts.charging_mosfet,
                discharging_mosfet: counts.discharging_mosfet,
                bms_cycles: counts.bms_cycles,
                capacity_ah: counts.capacity_ah,
            },
            Err(refusal) => MosfetStatusCountsTold {
                number: refusal.into(),
                ..MosfetStatusCountsTold::default()
            },
        }
    }
}

impl From<Result<Status, Refusal>> for StatusTold {
    ghost from_gives = { λ answer told. told ≡ status_told answer };

    fn from(answer: Result<Status, Refusal>) -> StatusTold {
        match answer {
            Ok(board) => StatusTold {
                number: 0,
                cells: board.cells,
                temperature_sensors: board.temperature_sensors,
                charger_running: board.charger_running,
                load_running: board.load_running,
                di1: board.states.di1,
                di2: board.states.di2,
                di3: board.states.di3,
                di4: board.states.di4,
                do1: board.states.do1,
                do2: board.states.do2,
                do3: board.states.do3,
                do4: board.states.do4,
                cycles: board.cycles,
            },
            Err(refusal) => StatusTold {
                number: refusal.into(),
                ..StatusTold::default()
            },
        }
    }
}

// The exports: none can be generic.
#[unsafe(no_mangle)]
pub extern "C" fn daly_soc(rx_buffer: &[u8]) -> SocTold
    ensures { result ≡ soc_told (decoded_soc rx_buffer.now) }
{
    Soc::decode(rx_buffer).into()
}

#[unsafe(no_mangle)]
pub extern "C" fn daly_soc_counts(rx_buffer: &[u8]) -> SocCountsTold
    ensures { result ≡ soc_counts_told (decoded_soc_counts rx_buffer.now) }
{
    SocCounts::decode(rx_buffer).into()
}

#[unsafe(no_mangle)]
pub extern "C" fn daly_cell_voltage_range(rx_buffer: &[u8]) -> CellVoltageRangeTold
    ensures { result ≡ cell_voltage_range_told (decoded_cell_voltage_range rx_buffer.now) }
{
    CellVoltageRange::decode(rx_buffer).into()
}

#[unsafe(no_mangle)]
pub extern "C" fn daly_cell_voltage_range_counts(rx_buffer: &[u8]) -> CellVoltageRangeCountsTold
    ensures { result ≡ cell_voltage_range_counts_told (decoded_cell_voltage_range_counts rx_buffer.now) }
{
    CellVoltageRangeCounts::decode(rx_buffer).into()
}

#[unsafe(no_mangle)]
pub extern "C" fn daly_temperature_range(rx_buffer: &[u8]) -> TemperatureRangeTold
    ensures { result ≡ temperature_range_told (decoded_temperature_range rx_buffer.now) }
{
    TemperatureRange::decode(rx_buffer).into()
}

#[unsafe(no_mangle)]
pub extern "C" fn daly_mosfet_status(rx_buffer: &[u8]) -> MosfetStatusTold
    ensures { result ≡ mosfet_status_told (decoded_mosfet_status rx_buffer.now) }
{
    MosfetStatus::decode(rx_buffer).into()
}

#[unsafe(no_mangle)]
pub extern "C" fn daly_mosfet_status_counts(rx_buffer: &[u8]) -> MosfetStatusCountsTold
    ensures { result ≡ mosfet_status_counts_told (decoded_mosfet_status_counts rx_buffer.now) }
{
    MosfetStatusCounts::decode(rx_buffer).into()
}

#[unsafe(no_mangle)]
pub extern "C" fn daly_status(rx_buffer: &[u8]) -> StatusTold
    ensures { result ≡ status_told (decoded_status rx_buffer.now) }
{
    Status::decode(rx_buffer).into()
}
