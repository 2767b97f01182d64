// 92: the highest and the lowest temperature, and which sensors have them.
#![tactic(auto)]

ghost use Rattle.std.specs.Prelude.{◌≡◌};
ghost use Rattle.temperature_range.specs.TemperatureRange.{temperature_of, decoded_temperature_range};

use frame::{Refusal, Reply, command, sound_frame};

// Degrees.
#[derive(Clone, Copy, Debug, PartialEq, Eq)]
pub struct TemperatureRange {
    pub highest_temperature: i8,
    pub highest_sensor: u8,
    pub lowest_temperature: i8,
    pub lowest_sensor: u8,
}

// The byte that the bench makes of a temperature is this one's inverse, and no twin.
fn temperature(byte: u8) -> i8
    ensures { result ≡ temperature_of byte }
{
    byte.wrapping_sub(40).cast_signed()
}

impl Reply for TemperatureRange {
    const COMMAND: u8 = command::TEMPERATURE_RANGE;

    ghost COMMAND = { 0x92 };

    ghost decoded = { decoded_temperature_range };

    ghost refuses = { λ s r e. rw e };

    fn decode(rx_buffer: &[u8]) -> Result<Self, Refusal> {
        let frame = sound_frame(rx_buffer, Self::COMMAND)?;
        Ok(Self {
            highest_temperature: temperature(frame[4]),
            highest_sensor: frame[5],
            lowest_temperature: temperature(frame[6]),
            lowest_sensor: frame[7],
        })
    }
}
