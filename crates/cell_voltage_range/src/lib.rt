// 91: the highest and the lowest cell voltage, and which cells have them.
#![tactic(auto)]

ghost use Rattle.std.specs.Prelude.{◌≡◌};
ghost use Rattle.cell_voltage_range.specs.CellVoltageRange.{cell_voltage_range_of, decoded_cell_voltage_range_counts, decoded_cell_voltage_range};

use frame::{Refusal, Reply, command, sound_frame};

// In volts; of another number what its alias says.
#[derive(Clone, Copy, Debug, PartialEq, Eq)]
pub struct CellVoltageRange<V = f32> {
    pub highest_voltage: V,
    pub highest_cell: u8,
    pub lowest_voltage: V,
    pub lowest_cell: u8,
}

// Thousandths of a volt.
pub type CellVoltageRangeCounts = CellVoltageRange<u16>;

impl From<CellVoltageRangeCounts> for CellVoltageRange {
    ghost from_gives = { λ counts range. range ≡ cell_voltage_range_of counts };

    fn from(counts: CellVoltageRangeCounts) -> Self {
        Self {
            highest_voltage: units::thousandths_u16(counts.highest_voltage),
            highest_cell: counts.highest_cell,
            lowest_voltage: units::thousandths_u16(counts.lowest_voltage),
            lowest_cell: counts.lowest_cell,
        }
    }
}

impl Reply for CellVoltageRangeCounts {
    const COMMAND: u8 = command::CELL_VOLTAGE_RANGE;

    ghost COMMAND = { 0x91 };

    ghost decoded = { decoded_cell_voltage_range_counts };

    ghost refuses = { λ s r e. rw e };

    fn decode(rx_buffer: &[u8]) -> Result<Self, Refusal> {
        let frame = sound_frame(rx_buffer, Self::COMMAND)?;
        Ok(Self {
            highest_voltage: wire::two_bytes(frame[4], frame[5]),
            highest_cell: frame[6],
            lowest_voltage: wire::two_bytes(frame[7], frame[8]),
            lowest_cell: frame[9],
        })
    }
}

impl Reply for CellVoltageRange {
    const COMMAND: u8 = command::CELL_VOLTAGE_RANGE;

    ghost COMMAND = { 0x91 };

    ghost decoded = { decoded_cell_voltage_range };

    ghost refuses = { λ s r e. rw e };

    // As in the other records made of counts: one function for all three would be a trait more for this one line.
    fn decode(rx_buffer: &[u8]) -> Result<Self, Refusal> {
        CellVoltageRangeCounts::decode(rx_buffer).map(Self::from)
    }
}
