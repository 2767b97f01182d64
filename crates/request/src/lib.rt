// The requests: each answers the 13 bytes to send.
#![tactic(auto)]

ghost use Rattle.std.specs.Prelude.{◌≡◌};
ghost use Rattle.frame.specs.Commands.{mosfet_command};
ghost use Rattle.request.specs.Requests.{request, read_request, switch_request, set_soc_request};
ghost use Rattle.request.specs.Queries.{query_command, query_of};

use frame::{Mosfet, Refusal, command};

// What is asked for with no data.
#[derive(Clone, Copy, Debug, PartialEq, Eq)]
pub enum Query {
    Soc,
    CellVoltageRange,
    TemperatureRange,
    MosfetStatus,
    Status,
    CellVoltages,
    CellTemperatures,
    CellBalanceState,
    ErrorCode,
    BmsReset,
}

impl From<Query> for u8 {
    ghost from_gives = { λ query command. command ≡ query_command query };

    // A match, so that each number is said once, as the constant of `frame`.
    fn from(query: Query) -> u8 {
        match query {
            Query::Soc => command::SOC,
            Query::CellVoltageRange => command::CELL_VOLTAGE_RANGE,
            Query::TemperatureRange => command::TEMPERATURE_RANGE,
            Query::MosfetStatus => command::MOSFET_STATUS,
            Query::Status => command::STATUS,
            Query::CellVoltages => command::CELL_VOLTAGES,
            Query::CellTemperatures => command::CELL_TEMPERATURES,
            Query::CellBalanceState => command::CELL_BALANCE_STATE,
            Query::ErrorCode => command::ERROR_CODE,
            Query::BmsReset => command::BMS_RESET,
        }
    }
}

impl TryFrom<u8> for Query {
    type Error = Refusal;

    ghost try_from_gives = { λ byte query. query ≡ query_of byte };

    // A match, row by row as module 2 of document 01 has them: from a number to an enum there is no cast.
    fn try_from(byte: u8) -> Result<Self, Refusal> {
        match byte {
            command::SOC => Ok(Query::Soc),
            command::CELL_VOLTAGE_RANGE => Ok(Query::CellVoltageRange),
            command::TEMPERATURE_RANGE => Ok(Query::TemperatureRange),
            command::MOSFET_STATUS => Ok(Query::MosfetStatus),
            command::STATUS => Ok(Query::Status),
            command::CELL_VOLTAGES => Ok(Query::CellVoltages),
            command::CELL_TEMPERATURES => Ok(Query::CellTemperatures),
            command::CELL_BALANCE_STATE => Ok(Query::CellBalanceState),
            command::ERROR_CODE => Ok(Query::ErrorCode),
            command::BMS_RESET => Ok(Query::BmsReset),
            _ => Err(Refusal::UnknownCommand),
        }
    }
}

impl Query {
    pub fn request(self) -> [u8; 13]
        ensures { result ≡ read_request (query_command self) }
    {
        request_frame(self.into(), [0; 8])
    }
}

// A request with the given data bytes.
fn request_frame(command: u8, payload: [u8; 8]) -> [u8; 13]
    ensures { result ≡ request command payload }
{
    frame::framed(frame::HOST_ADDRESS, command, payload)
}

// `enable` chooses no step: it is what is sent, "data byte 4 is 1 to enable", and C's `daly_request` has it as a flag.
pub fn set_mosfet(mosfet: Mosfet, enable: bool) -> [u8; 13]
    ensures { result ≡ switch_request (mosfet_command mosfet) enable }
{
    request_frame(mosfet.into(), [enable.into(), 0, 0, 0, 0, 0, 0, 0])
}

pub fn set_soc(soc_percent: f32) -> [u8; 13]
    ensures { result ≡ set_soc_request soc_percent }
{
    let [high, low] = units::set_soc_count(soc_percent).to_be_bytes();
    request_frame(command::SET_SOC, [0, 0, 0, 0, 0, 0, high, low])
}
