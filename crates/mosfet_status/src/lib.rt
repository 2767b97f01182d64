// 93: what the MOSFETs do, the board's cycles and the capacity left.
#![tactic(auto)]

ghost use Rattle.std.specs.Prelude.{◌≡◌};
ghost use Rattle.mosfet_status.specs.MosfetStatus.{checked_mode, mode_number, mosfet_refuses, mosfet_status_of};
ghost use Rattle.mosfet_status.specs.MosfetStatus.{decoded_mosfet_status_counts, decoded_mosfet_status};

use frame::{Refusal, Reply, command, sound_frame};

#[derive(Clone, Copy, Debug, PartialEq, Eq)]
pub enum MosfetMode {
    Stationary,
    Charging,
    Discharging,
}

impl TryFrom<u8> for MosfetMode {
    type Error = Refusal;

    ghost try_from_gives = { λ byte mode. mode ≡ checked_mode byte };

    // A match: from a number to an enum there is no cast.
    fn try_from(byte: u8) -> Result<Self, Refusal> {
        match byte {
            0 => Ok(MosfetMode::Stationary),
            1 => Ok(MosfetMode::Charging),
            2 => Ok(MosfetMode::Discharging),
            _ => Err(Refusal::UnknownMode),
        }
    }
}

impl From<MosfetMode> for u8 {
    ghost from_gives = { λ mode number. number ≡ mode_number mode };

    fn from(mode: MosfetMode) -> u8 {
        mode as u8
    }
}

// The capacity in ampere-hours; of another number what its alias says.
#[derive(Clone, Copy, Debug, PartialEq, Eq)]
pub struct MosfetStatus<C = f32> {
    pub mode: MosfetMode,
    pub charging_mosfet: bool,
    pub discharging_mosfet: bool,
    pub bms_cycles: u8,
    pub capacity_ah: C,
}

// The capacity in thousandths of an ampere-hour.
pub type MosfetStatusCounts = MosfetStatus<u32>;

impl From<MosfetStatusCounts> for MosfetStatus {
    ghost from_gives = { λ counts status. status ≡ mosfet_status_of counts };

    fn from(counts: MosfetStatusCounts) -> Self {
        Self {
            mode: counts.mode,
            charging_mosfet: counts.charging_mosfet,
            discharging_mosfet: counts.discharging_mosfet,
            bms_cycles: counts.bms_cycles,
            capacity_ah: units::thousandths_u32(counts.capacity_ah),
        }
    }
}

impl Reply for MosfetStatusCounts {
    const COMMAND: u8 = command::MOSFET_STATUS;

    ghost COMMAND = { 0x93 };

    ghost decoded = { decoded_mosfet_status_counts };

    ghost refuses = { λ s r e. rw (mosfet_refuses s r e) };

    #[tactic(auto, unfolding(crate::specs::MosfetStatus::mosfet_check))]
    fn decode(rx_buffer: &[u8]) -> Result<Self, Refusal> {
        let frame = sound_frame(rx_buffer, Self::COMMAND)?;
        let high = wire::two_bytes(frame[8], frame[9]);
        let low = wire::two_bytes(frame[10], frame[11]);
        Ok(Self {
            mode: frame[4].try_into()?,
            charging_mosfet: frame[5] != 0,
            discharging_mosfet: frame[6] != 0,
            bms_cycles: frame[7],
            capacity_ah: wire::four_bytes(high, low),
        })
    }
}

impl Reply for MosfetStatus {
    const COMMAND: u8 = command::MOSFET_STATUS;

    ghost COMMAND = { 0x93 };

    ghost decoded = { decoded_mosfet_status };

    ghost refuses = { λ s r e. rw (mosfet_refuses s r e) };

    // As in the other records made of counts: one function for all three would be a trait more for this one line.
    fn decode(rx_buffer: &[u8]) -> Result<Self, Refusal> {
        MosfetStatusCounts::decode(rx_buffer).map(Self::from)
    }
}
