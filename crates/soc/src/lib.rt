// 90: total voltage, current and state of charge.
#![tactic(auto)]

ghost use Rattle.std.specs.Prelude.{◌≡◌};
ghost use Rattle.soc.specs.Soc.{soc_of, decoded_soc_counts, decoded_soc};

use frame::{Refusal, Reply, command, sound_frame};

// In volts, amperes and percent; of other numbers what its alias says.
#[derive(Clone, Copy, Debug, PartialEq, Eq)]
pub struct Soc<V = f32, I = V> {
    pub total_voltage: V,
    pub current: I,
    pub soc_percent: V,
}

// Tenths of a volt, of an ampere and of a percent.
pub type SocCounts = Soc<u16, i32>;

impl From<SocCounts> for Soc {
    ghost from_gives = { λ counts soc. soc ≡ soc_of counts };

    fn from(counts: SocCounts) -> Self {
        Self {
            total_voltage: units::tenths_u16(counts.total_voltage),
            current: units::tenths_i32(counts.current),
            soc_percent: units::tenths_u16(counts.soc_percent),
        }
    }
}

impl Reply for SocCounts {
    const COMMAND: u8 = command::SOC;

    ghost COMMAND = { 0x90 };

    ghost decoded = { decoded_soc_counts };

    ghost refuses = { λ s r e. rw e };

    fn decode(rx_buffer: &[u8]) -> Result<Self, Refusal> {
        let frame = sound_frame(rx_buffer, Self::COMMAND)?;
        Ok(Self {
            total_voltage: wire::two_bytes(frame[4], frame[5]),
            current: units::current_count(wire::two_bytes(frame[8], frame[9])),
            soc_percent: wire::two_bytes(frame[10], frame[11]),
        })
    }
}

impl Reply for Soc {
    const COMMAND: u8 = command::SOC;

    ghost COMMAND = { 0x90 };

    ghost decoded = { decoded_soc };

    ghost refuses = { λ s r e. rw e };

    // As in the other records made of counts: one function for all three would be a trait more for this one line.
    fn decode(rx_buffer: &[u8]) -> Result<Self, Refusal> {
        SocCounts::decode(rx_buffer).map(Self::from)
    }
}
