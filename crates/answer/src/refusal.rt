// Why a call refuses: a number of document 01's table, or of a ticket's, by the name that include/tahliruz.h has for it.
ghost use Rattle.std.specs.Prelude.{◌≡◌};
ghost use Rattle.answer.specs.Refusal.{refusal_number, as_answer, as_long_answer};

use crate::{Answer, LongAnswer};

#[derive(Clone, Copy, Debug, PartialEq, Eq)]
pub enum Refusal {
    TableSize,
    TableString,
    TablePrefix,
    Pixel,
    Room,
    WordsEnd,
    NoString,
    StepOutside,
    RawHeight,
    UnusedBit,
    TooMany,
    BytesEnd,
    NumberRange,
    Record,
    Kind,
    Place,
    FitsHeader,
    ImageEnd,
    MapEnd,
    MapPixel,
    MapTotal,
    ShelfFull,
    NoTable,
    NotItsPlace,
    DeltaPlace,
    DeltaCount,
    DeltaStart,
    DeltaSum,
}

impl Refusal {
    // Its number, which C is told and which the programs print.
    pub fn number(self) -> u32
        ensures { result ≡ refusal_number self }
    {
        match self {
            Refusal::TableSize => 1,
            Refusal::TableString => 2,
            Refusal::TablePrefix => 3,
            Refusal::Pixel => 4,
            Refusal::Room => 5,
            Refusal::WordsEnd => 6,
            Refusal::NoString => 7,
            Refusal::StepOutside => 8,
            Refusal::RawHeight => 9,
            Refusal::UnusedBit => 10,
            Refusal::TooMany => 11,
            Refusal::BytesEnd => 12,
            Refusal::NumberRange => 13,
            Refusal::Record => 14,
            Refusal::Kind => 15,
            Refusal::Place => 16,
            Refusal::FitsHeader => 17,
            Refusal::ImageEnd => 18,
            Refusal::MapEnd => 19,
            Refusal::MapPixel => 20,
            Refusal::MapTotal => 21,
            Refusal::ShelfFull => 22,
            Refusal::NoTable => 23,
            Refusal::NotItsPlace => 24,
            Refusal::DeltaPlace => 25,
            Refusal::DeltaCount => 26,
            Refusal::DeltaStart => 27,
            Refusal::DeltaSum => 28,
        }
    }
}

// What a call gave, as C has it.
impl From<Result<u32, Refusal>> for Answer {
    ghost from_gives = { λ r answer. answer ≡ as_answer r };

    fn from(given: Result<u32, Refusal>) -> Answer {
        match given {
            Ok(count) => Answer { number: 0, count },
            Err(refusal) => Answer {
                number: refusal.number(),
                count: 0,
            },
        }
    }
}

impl From<Result<u64, Refusal>> for LongAnswer {
    ghost from_gives = { λ r answer. answer ≡ as_long_answer r };

    fn from(given: Result<u64, Refusal>) -> LongAnswer {
        match given {
            Ok(count) => LongAnswer { number: 0, count },
            Err(refusal) => LongAnswer {
                number: refusal.number(),
                count: 0,
            },
        }
    }
}
