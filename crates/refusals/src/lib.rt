#![tactic(auto)]
// What is turned down, case by case, each with its number (01, What is turned down; 02, 2.1, 2.6).
ghost use Rattle.std.specs.Prelude.{◌≡◌};
ghost use Rattle.refusals.specs.Refusals.{number_of};

use std::error::Error;
use std::fmt;

#[derive(Clone, Copy, Debug, PartialEq, Eq)]
pub enum Refusal {
    // of a setup line
    LineLength,
    FieldCount,
    FieldForm,
    // of a setup
    RateUnknown,
    IdentifierUnknown,
    TerminationUnknown,
    UnitTooGreat,
    ShiftTooGreat,
    GroupNotCarried,
    // of a session and a piece
    SessionUnsound,
    PieceTooLong,
    StreamTooLong,
    // of a text line
    LineOutside,
    LineRoom,
    // of a datagram to write
    DatagramOutside,
    DatagramRoom,
    // of a value to print
    PlacesOrShift,
    NumberTooGreat,
    ValueRoom,
}

impl Refusal {
    // The number by which 01 and 02 tell it.
    pub fn number(self) -> u8
        ensures { result ≡ number_of self }
    {
        match self {
            Refusal::LineLength => 1,
            Refusal::FieldCount => 2,
            Refusal::FieldForm => 3,
            Refusal::RateUnknown => 4,
            Refusal::IdentifierUnknown => 5,
            Refusal::TerminationUnknown => 6,
            Refusal::UnitTooGreat => 7,
            Refusal::ShiftTooGreat => 8,
            Refusal::GroupNotCarried => 9,
            Refusal::SessionUnsound => 10,
            Refusal::PieceTooLong => 11,
            Refusal::StreamTooLong => 12,
            Refusal::LineOutside => 13,
            Refusal::LineRoom => 14,
            Refusal::DatagramOutside => 15,
            Refusal::DatagramRoom => 16,
            Refusal::PlacesOrShift => 17,
            Refusal::NumberTooGreat => 18,
            Refusal::ValueRoom => 19,
        }
    }
}

// As the programs say it: `refused ` and the number.
impl fmt::Display for Refusal {
    ghost use Rattle.std.specs.Prelude.{Some};
    ghost use Rattle.refusals.specs.Refusals.{refusal_text};

    ghost output = { λ e. Some (refusal_text e) };

    fn fmt<W: fmt::Write>(&self, f: &mut fmt::Formatter<W>) -> fmt::Result {
        write!(f, "refused {}", self.number())
    }
}

impl Error for Refusal {}
