// Why an input is refused, and the number by which C knows it.
ghost use Rattle.std.specs.Prelude.{◌≡◌};
ghost use Rattle.frame.specs.Refusals.{refusal_number, answer_number};

// The documents' names and numbers.
#[derive(Clone, Copy, Debug, PartialEq, Eq)]
pub enum Refusal {
    ReplySizeError = 1,
    UnexpectedFrame = 2,
    CheckSumError = 3,
    FrameNoError = 4,
    UnknownMode = 5,
    ReplyTooLong = 6,
    RequestTooShort = 7,
    BadState = 8,
    NoRoom = 9,
    UnknownCommand = 10,
    CountTooLarge = 11,
    ValueOutOfRange = 12,
}

impl From<Refusal> for u8 {
    ghost from_gives = { λ refusal number. number ≡ refusal_number refusal };

    fn from(refusal: Refusal) -> u8 {
        refusal as u8
    }
}

// An answer as C is told it: the refusal's number, or 0, "done". A number, since C's functions of `daly` answer one (`answer_number`).
pub fn number_of<T: Copy>(answer: Result<T, Refusal>) -> u8
    ensures { result ≡ answer_number answer }
{
    match answer {
        Ok(_) => 0,
        Err(refusal) => refusal.into(),
    }
}
