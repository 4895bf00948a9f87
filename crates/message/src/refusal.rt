ghost use Rattle.std.specs.Prelude.{◌≡◌};
ghost use Rattle.message.specs.Refusal.{refusal_number};

use std::fmt;
use thiserror::Error;

// Why a call is refused: one list for the whole product, each with its number and what it says to people.
#[derive(Clone, Copy, Debug, Error)]
pub enum Refusal {
    Opcode = 1,
    Param = 2,
    Size = 3,
    Address = 4,
    Mask = 5,
    Data = 6,
    Source = 7,
    TooLarge = 8,
    SourceOwed = 9,
    NotReady = 10,
    NothingAtHand = 11,
    BufferShort = 12,
    LogShort = 13,
    NoPort = 14,
    SlotTaken = 15,
    Parameter = 16,
    BaseInMask = 17,
    SetsOverlap = 18,
    HeadDiffers = 19,
    Corrupt = 20,
}

// What the refusal says to people. By hand: a derived text takes no width, and who prints a table wants one.
impl fmt::Display for Refusal {
    fn fmt<W: fmt::Write>(&self, f: &mut fmt::Formatter<W>) -> fmt::Result {
        f.pad(match self {
            Refusal::Opcode => "no such opcode",
            Refusal::Param => "the opcode has no such param",
            Refusal::Size => "size not allowed for the opcode",
            Refusal::Address => "address is not a multiple of the message's bytes",
            Refusal::Mask => "mask bit past the message, or missing in it",
            Refusal::Data => "data is not as long as the message asks",
            Refusal::Source => "source is not below the agent's sources",
            Refusal::TooLarge => "size is above the agent's largest",
            Refusal::SourceOwed => "a response to the source is still owed",
            Refusal::NotReady => "agent is not ready",
            Refusal::NothingAtHand => "no response is at hand",
            Refusal::BufferShort => "buffer is shorter than the data",
            Refusal::LogShort => "log is shorter than the list of calls",
            Refusal::NoPort => "no such port",
            Refusal::SlotTaken => "the port's slot is taken",
            Refusal::Parameter => "parameter is outside its limits",
            Refusal::BaseInMask => "base has a bit that the mask has too",
            Refusal::SetsOverlap => "the address sets overlap",
            Refusal::HeadDiffers => "a later beat's head differs from the first's",
            Refusal::Corrupt => "corrupt is not what denied asks",
        })
    }
}

// The number by which sheets, logs and documents know the refusal.
impl From<Refusal> for u8 {
    ghost from_gives = { λ refusal number. number ≡ refusal_number refusal };

    fn from(refusal: Refusal) -> u8 {
        refusal as u8
    }
}
