// One-frame replies. Each decoder makes the frame check on the whole lent buffer and then reads its bytes.
// Those that read have a crate each; those that are only checked stand here.
#![tactic(auto)]

ghost use Rattle.std.specs.Prelude.{◌≡◌};
ghost use Rattle.frame.specs.Checks.{frame_check};
ghost use Rattle.reading.specs.Acknowledged.{acknowledged_command};

pub use cell_voltage_range::{CellVoltageRange, CellVoltageRangeCounts};
pub use frame::Reply;
use frame::{Mosfet, Refusal, command};
pub use mosfet_status::{MosfetMode, MosfetStatus, MosfetStatusCounts};
pub use soc::{Soc, SocCounts};
pub use status::{IOState, Status};
pub use temperature_range::TemperatureRange;

// The size of every reply of this crate.
pub fn reply_size() -> usize
    ensures { result ≡ 13 }
{
    frame::FRAME_LENGTH
}

// Set and reset: their replies are only checked.
#[derive(Clone, Copy, Debug, PartialEq, Eq)]
pub enum Acknowledged {
    SetMosfet(Mosfet),
    SetSoc,
    BmsReset,
}

impl From<Acknowledged> for u8 {
    ghost from_gives = { λ request command. command ≡ acknowledged_command request };

    fn from(request: Acknowledged) -> u8 {
        match request {
            Acknowledged::SetMosfet(mosfet) => mosfet.into(),
            Acknowledged::SetSoc => command::SET_SOC,
            Acknowledged::BmsReset => command::BMS_RESET,
        }
    }
}

impl Acknowledged {
    pub fn decode(self, rx_buffer: &[u8]) -> Result<(), Refusal>
        ensures { result ≡ frame_check (acknowledged_command self) rx_buffer.now }
    {
        frame::reply_check(rx_buffer, self.into())
    }
}
