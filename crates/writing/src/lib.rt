// Replies of one frame as a board sends them, from whole wire counts into a lent buffer: 90 to 94, and the acknowledgements.
// The sender's address and the lent buffer are two parameters of each writer, as in C (include/daly_writers.h): `writers` hands them on.
#![tactic(auto)]

ghost use Rattle.std.specs.Prelude.{◌≡◌, ℕ, List};
ghost use Rattle.frame.specs.Frame.{frame};
ghost use Rattle.writing.specs.Replies.{put_at, WritesFrame, soc_reply, cell_voltage_range_reply, plus40, temperature_range_reply};
ghost use Rattle.writing.specs.Replies.{WritesMosfetStatus, state_byte, status_reply, acknowledgement};
ghost use Rattle.writing.specs.Replies.{soc_data, cell_voltage_range_data, temperature_range_data, mosfet_status_data, status_data};

use cell_voltage_range::CellVoltageRangeCounts;
use frame::{Refusal, command};
use status::{IOState, Status};
use temperature_range::TemperatureRange;
use wire::flag_byte;

// What a board sends as one frame: under which command, and its eight data bytes. No `data` is the twin of another: each puts other fields
// where document 01 has them.
pub trait OneFrame {
    ghost COMMAND: { ℕ };

    const COMMAND: u8;

    ghost bytes: { Self → List ℕ };

    fn data(self) -> [u8; 8]
        ensures { result ≡ bytes self };
}

// As on the wire: tenths, those of an ampere 30,000 more than they are. Laid out for C, as the decoder's `Soc` is not, whose current can fall below 0.
#[repr(C)]
#[derive(Clone, Copy, Debug, PartialEq, Eq)]
pub struct SocWire {
    pub total_voltage: u16,
    pub current: u16,
    pub soc_percent: u16,
}

// The mode as its byte; thousandths of an ampere-hour. Laid out for C, as the decoder's `MosfetStatus` is not, which has no mode over 2 to refuse.
#[repr(C)]
#[derive(Clone, Copy, Debug, PartialEq, Eq)]
pub struct MosfetStatusWire {
    pub mode: u8,
    pub charging_mosfet: bool,
    pub discharging_mosfet: bool,
    pub bms_cycles: u8,
    pub capacity_ah: u32,
}

// The 13 bytes of a frame, from place `at` on; none of them where there is no room for all, of which it says nothing. It
// is not called any more, and stays as the public name of its clause, which has the place (`put_at`).
pub fn put_frame(reply: [u8; 13], out: &mut [u8], at: usize)
    ensures { out.new ≡ put_at at reply out.old }
{
    if at <= out.len() {
        let _ = write_frame(reply, &mut out[at..]);
    }
}

// A reply of one frame: 9 where there is no room for it.
pub fn write_frame(reply: [u8; 13], out: &mut [u8]) -> Result<usize, Refusal>
    ensures { WritesFrame reply out.old result out.new }
{
    let places = out.first_chunk_mut::<13>().ok_or(Refusal::NoRoom)?;
    *places = reply;
    Ok(frame::FRAME_LENGTH)
}

// Whatever is one frame, from this sender. `write_soc`, `write_cell_voltage_range`, `write_temperature_range` and `write_status` are a line each
// over it: public names with clauses of their own, which `writers` cites.
pub fn write<R: OneFrame>(address: u8, reply: R, out: &mut [u8]) -> Result<usize, Refusal>
    ensures { WritesFrame (frame address R.COMMAND (R.bytes reply)) out.old result out.new }
{
    write_frame(frame::framed(address, R::COMMAND, reply.data()), out)
}

impl OneFrame for SocWire {
    ghost COMMAND = { 0x90 };

    const COMMAND: u8 = command::SOC;

    ghost bytes = { soc_data };

    fn data(self) -> [u8; 8] {
        let [voltage_high, voltage_low] = self.total_voltage.to_be_bytes();
        let [current_high, current_low] = self.current.to_be_bytes();
        let [percent_high, percent_low] = self.soc_percent.to_be_bytes();
        [
            voltage_high,
            voltage_low,
            0,
            0,
            current_high,
            current_low,
            percent_high,
            percent_low,
        ]
    }
}

pub fn write_soc(address: u8, counts: SocWire, out: &mut [u8]) -> Result<usize, Refusal>
    ensures { WritesFrame (soc_reply address counts) out.old result out.new }
{
    write::<SocWire>(address, counts, out)
}

impl OneFrame for CellVoltageRangeCounts {
    ghost COMMAND = { 0x91 };

    const COMMAND: u8 = command::CELL_VOLTAGE_RANGE;

    ghost bytes = { cell_voltage_range_data };

    fn data(self) -> [u8; 8] {
        let [highest_high, highest_low] = self.highest_voltage.to_be_bytes();
        let [lowest_high, lowest_low] = self.lowest_voltage.to_be_bytes();
        [
            highest_high,
            highest_low,
            self.highest_cell,
            lowest_high,
            lowest_low,
            self.lowest_cell,
            0,
            0,
        ]
    }
}

pub fn write_cell_voltage_range(
    address: u8,
    counts: CellVoltageRangeCounts,
    out: &mut [u8],
) -> Result<usize, Refusal>
    ensures { WritesFrame (cell_voltage_range_reply address counts) out.old result out.new }
{
    write::<CellVoltageRangeCounts>(address, counts, out)
}

// 40 more, modulo 256: below -40 it wraps, so every `i8` has its byte. The decoder's way back, in `temperature_range`, is no twin.
fn degree_byte(degrees: i8) -> u8
    ensures { result ≡ plus40 degrees }
{
    degrees.wrapping_add(40).cast_unsigned()
}

impl OneFrame for TemperatureRange {
    ghost COMMAND = { 0x92 };

    const COMMAND: u8 = command::TEMPERATURE_RANGE;

    ghost bytes = { temperature_range_data };

    fn data(self) -> [u8; 8] {
        [
            degree_byte(self.highest_temperature),
            self.highest_sensor,
            degree_byte(self.lowest_temperature),
            self.lowest_sensor,
            0,
            0,
            0,
            0,
        ]
    }
}

pub fn write_temperature_range(
    address: u8,
    range: TemperatureRange,
    out: &mut [u8],
) -> Result<usize, Refusal>
    ensures { WritesFrame (temperature_range_reply address range) out.old result out.new }
{
    write::<TemperatureRange>(address, range, out)
}

impl OneFrame for MosfetStatusWire {
    ghost COMMAND = { 0x93 };

    const COMMAND: u8 = command::MOSFET_STATUS;

    ghost bytes = { mosfet_status_data };

    fn data(self) -> [u8; 8] {
        let [first, second, third, last] = self.capacity_ah.to_be_bytes();
        [
            self.mode,
            flag_byte(self.charging_mosfet),
            flag_byte(self.discharging_mosfet),
            self.bms_cycles,
            first,
            second,
            third,
            last,
        ]
    }
}

// 12 for a mode over 2, then 9.
pub fn write_mosfet_status(
    address: u8,
    counts: MosfetStatusWire,
    out: &mut [u8],
) -> Result<usize, Refusal>
    ensures { WritesMosfetStatus address counts out.old result out.new }
{
    if 2 < counts.mode {
        return Err(Refusal::ValueOutOfRange);
    }
    write::<MosfetStatusWire>(address, counts, out)
}

// The way back of `IOState::from`. Neither type is of this crate, so that this is no `From`.
fn state_byte(states: IOState) -> u8
    ensures { result ≡ state_byte states }
{
    let flags = [
        states.di1, states.di2, states.di3, states.di4, states.do1, states.do2, states.do3,
        states.do4,
    ];
    wire::byte_of(&flags, 0, 8)
}

impl OneFrame for Status {
    ghost COMMAND = { 0x94 };

    const COMMAND: u8 = command::STATUS;

    ghost bytes = { status_data };

    fn data(self) -> [u8; 8] {
        let [cycles_high, cycles_low] = self.cycles.to_be_bytes();
        [
            self.cells,
            self.temperature_sensors,
            flag_byte(self.charger_running),
            flag_byte(self.load_running),
            state_byte(self.states),
            cycles_high,
            cycles_low,
            0,
        ]
    }
}

pub fn write_status(address: u8, status: Status, out: &mut [u8]) -> Result<usize, Refusal>
    ensures { WritesFrame (status_reply address status) out.old result out.new }
{
    write::<Status>(address, status, out)
}

// No byte of it has a meaning. The three below are a line each over it: public names with clauses of their own, which `writers` cites.
fn write_acknowledgement(address: u8, command: u8, out: &mut [u8]) -> Result<usize, Refusal>
    ensures { WritesFrame (acknowledgement address command) out.old result out.new }
{
    write_frame(frame::framed(address, command, [0; 8]), out)
}

pub fn write_set_discharge_mosfet(address: u8, out: &mut [u8]) -> Result<usize, Refusal>
    ensures { WritesFrame (acknowledgement address 0xD9) out.old result out.new }
{
    write_acknowledgement(address, command::SET_DISCHARGE_MOSFET, out)
}

pub fn write_set_charge_mosfet(address: u8, out: &mut [u8]) -> Result<usize, Refusal>
    ensures { WritesFrame (acknowledgement address 0xDA) out.old result out.new }
{
    write_acknowledgement(address, command::SET_CHARGE_MOSFET, out)
}

pub fn write_set_soc(address: u8, out: &mut [u8]) -> Result<usize, Refusal>
    ensures { WritesFrame (acknowledgement address 0x21) out.old result out.new }
{
    write_acknowledgement(address, command::SET_SOC, out)
}
