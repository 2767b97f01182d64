// 94: how many cells and sensors there are, what runs, and the inputs and outputs.
#![tactic(auto)]

ghost use Rattle.std.specs.Prelude.{◌≡◌};
ghost use Rattle.status.specs.Status.{io_state, decoded_status};

use frame::{Refusal, Reply, command, sound_frame};

#[derive(Clone, Copy, Debug, PartialEq, Eq)]
pub struct IOState {
    pub di1: bool,
    pub di2: bool,
    pub di3: bool,
    pub di4: bool,
    pub do1: bool,
    pub do2: bool,
    pub do3: bool,
    pub do4: bool,
}

#[derive(Clone, Copy, Debug, PartialEq, Eq)]
pub struct Status {
    pub cells: u8,
    pub temperature_sensors: u8,
    pub charger_running: bool,
    pub load_running: bool,
    pub states: IOState,
    pub cycles: u16,
}

impl From<u8> for IOState {
    ghost from_gives = { λ byte states. states ≡ io_state byte };

    fn from(byte: u8) -> Self {
        Self {
            di1: wire::read_bit(byte, 0),
            di2: wire::read_bit(byte, 1),
            di3: wire::read_bit(byte, 2),
            di4: wire::read_bit(byte, 3),
            do1: wire::read_bit(byte, 4),
            do2: wire::read_bit(byte, 5),
            do3: wire::read_bit(byte, 6),
            do4: wire::read_bit(byte, 7),
        }
    }
}

impl Reply for Status {
    const COMMAND: u8 = command::STATUS;

    ghost COMMAND = { 0x94 };

    ghost decoded = { decoded_status };

    ghost refuses = { λ s r e. rw e };

    fn decode(rx_buffer: &[u8]) -> Result<Self, Refusal> {
        let frame = sound_frame(rx_buffer, Self::COMMAND)?;
        Ok(Self {
            cells: frame[4],
            temperature_sensors: frame[5],
            charger_running: frame[6] != 0,
            load_running: frame[7] != 0,
            states: frame[8].into(),
            cycles: wire::two_bytes(frame[9], frame[10]),
        })
    }
}
