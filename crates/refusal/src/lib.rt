#![tactic(auto)]

ghost use Rattle.std.specs.Prelude.{◌≡◌, Some};
ghost use Rattle.refusal.specs.Card.{number_of};
ghost use Rattle.refusal.specs.Faults.{refusal, line_of};

use std::error::Error;
use std::fmt;

// Why a call refuses. docs/refusals.md says when each is given.
#[derive(Clone, Copy, PartialEq, Eq, Debug)]
pub enum Reason {
    SourceTooLong = 1,
    UnexpectedByte = 2,
    UnclosedComment = 3,
    NumberTooLarge = 4,
    MissingSeparator = 5,
    TooManyTokens = 6,
    Syntax = 7,
    NestingTooDeep = 8,
    UnknownName = 9,
    DuplicateName = 10,
    VoidVariable = 11,
    ArraySize = 12,
    WrongKind = 13,
    ArgumentCount = 14,
    ReturnValue = 15,
    MissingMain = 16,
    TableTooShort = 17,
    CodeStoreTooShort = 18,
    ImageLength = 19,
    BlockCheck = 20,
    BlockHeader = 21,
    InstructionForm = 22,
    CodeLength = 23,
    ImageStoreTooShort = 24,
    MemorySize = 25,
    GrantSize = 26,
    StoreMismatch = 27,
}

// A refusal: why, and the place that it names.
#[derive(Clone, Copy, PartialEq, Eq, Debug)]
pub struct Refusal {
    pub reason: Reason,
    pub place: usize,
}

impl Reason {
    pub fn number(self) -> u8
        ensures { result ≡ number_of self }
    {
        // only `as` gives a case's number
        self as u8
    }

    // The refusal for this reason at a place.
    pub fn at(self, place: usize) -> Refusal
        ensures { result ≡ refusal self place }
    {
        Refusal {
            reason: self,
            place,
        }
    }
}

// The line of a refusal that other tools read.
impl fmt::Display for Refusal {
    ghost output = { λ r. Some (line_of r) };

    fn fmt<W: fmt::Write>(&self, f: &mut fmt::Formatter<W>) -> fmt::Result {
        let number = self.reason.number();
        let place = self.place;
        write!(f, "refused {number} at {place}")
    }
}

impl Error for Refusal {}
