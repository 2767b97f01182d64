// The library for controllers: what C calls, on numbers and byte slices. A `&[u8]` is a pointer and then a length.
// An export cannot be generic, so here and in the modules each is its own line; and where it refuses, it answers a number, alone or beside
// a record (include/daly.h): C has no `Result`.
#![tactic(auto)]

ghost use Rattle.std.specs.Prelude.{◌≡◌};
ghost use Rattle.frame.specs.Refusals.{answer_number};
ghost use Rattle.frame.specs.Checks.{sum_of, frame_kind, part_check};
ghost use Rattle.daly.specs.Kinds.{frame_kind_told};
ghost use Rattle.daly.specs.Requests.{Requests, asked_for};

use frame::{FrameKind, Mosfet, Refusal, command, number_of};
use request::Query;

mod lists;
mod packs;
mod readers;
mod readings;

#[unsafe(no_mangle)]
pub extern "C" fn daly_calc_crc(buffer: &[u8]) -> u8
    ensures { result ≡ sum_of buffer.now }
{
    frame::calc_crc(buffer)
}

// 0, or why a frame is not sound; and whether a sound one is an echo. C reads it (include/daly.h).
#[repr(C)]
#[derive(Clone, Copy, Debug, Default, PartialEq, Eq)]
pub struct FrameKindTold {
    pub number: u8,
    pub echo: bool,
}

impl From<Result<FrameKind, Refusal>> for FrameKindTold {
    ghost from_gives = { λ kind told. told ≡ frame_kind_told kind };

    fn from(kind: Result<FrameKind, Refusal>) -> FrameKindTold {
        FrameKindTold {
            number: number_of(kind),
            echo: kind == Ok(FrameKind::Echo),
        }
    }
}

#[unsafe(no_mangle)]
pub extern "C" fn daly_frame_check(buffer: &[u8], command: u8) -> FrameKindTold
    ensures { result ≡ frame_kind_told (frame_kind command buffer.now) }
{
    frame::frame_check(buffer, command).into()
}

// Of frame k, a number that C hands in (include/daly.h).
#[unsafe(no_mangle)]
pub extern "C" fn daly_frame_refusal(buffer: &[u8], k: usize) -> u8
    ensures { result ≡ answer_number (part_check buffer.now k) }
{
    frame::frame_refusal(buffer, k)
}

// The request of a command. C has one call for all of them (include/daly.h): `enable` is read for D9 and DA, `soc_percent` for 21.
fn request_of(command: u8, enable: bool, soc_percent: f32) -> Result<[u8; 13], Refusal>
    ensures { result ≡ asked_for command enable soc_percent }
{
    match command {
        command::SET_DISCHARGE_MOSFET => Ok(request::set_mosfet(Mosfet::Discharge, enable)),
        command::SET_CHARGE_MOSFET => Ok(request::set_mosfet(Mosfet::Charge, enable)),
        command::SET_SOC => Ok(request::set_soc(soc_percent)),
        _ => Query::try_from(command).map(Query::request),
    }
}

// That request, into `out`. A command that no request has is refused, and `out` stays as it was.
#[unsafe(no_mangle)]
pub extern "C" fn daly_request(
    command: u8,
    enable: bool,
    soc_percent: f32,
    out: &mut [u8; 13],
) -> u8
    ensures { Requests command enable soc_percent out.old result out.new }
{
    match request_of(command, enable, soc_percent) {
        Ok(frame) => {
            *out = frame;
            0
        },
        Err(refusal) => refusal.into(),
    }
}
