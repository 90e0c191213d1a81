// Why a call is refused: documents 01 and 02, "Numbers handed back when a call is turned down".
ghost use Rattle.std.specs.Prelude.{◌≡◌};
ghost use Rattle.meaning.specs.Answer.{refused};
ghost use Rattle.meaning.specs.Refusal.{refusal_number};

use crate::{Answer, refused};

/// The refusals of all calls, each at its number.
#[derive(Clone, Copy, PartialEq, Eq)]
pub enum Refusal {
    Width = 1,
    Height = 2,
    Horizontal = 3,
    Vertical = 4,
    Depth = 5,
    Input = 6,
    Output = 7,
    OutsideKept = 8,
    TooLarge = 9,
    CutShort = 10,
    UnknownTag = 11,
    FieldLength = 12,
    NoShape = 13,
    FileTooLong = 14,
    Place = 15,
    TooManyBlocks = 16,
    Unwritten = 17,
    TooManySteps = 18,
    WorkArea = 19,
    Kept = 20,
    Order = 21,
    TotalsFull = 22,
    Residual = 23,
    Header = 24,
    Samples = 25,
    TooManyDropped = 26,
    OutOfRange = 27,
    Cell = 28,
    StepResult = 29,
    KindOfSide = 30,
    LowFrequency = 31,
}

impl Refusal {
    /// Its number in the documents.
    pub fn number(self) -> u32
        ensures { result ≡ refusal_number self }
    {
        self as u32
    }

    /// The answer of a call that is refused with it at a place.
    pub fn at(self, place: u32) -> Answer
        ensures { result ≡ refused (refusal_number self) place }
    {
        refused(self.number(), place)
    }
}
