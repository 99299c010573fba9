// What reading a record comes to.
ghost use Rattle.std.specs.Prelude.{◌≡◌};
ghost use Rattle.answer.specs.Refusal.{refusal_number};
ghost use Rattle.sheet_format.specs.Kinds.{kind_code};
ghost use Rattle.sheet_reader.specs.Answers.{read_answer, UnpackedTo};
ghost use Rattle.sheet_reader.specs.Leaves.{accepted_record};

use answer::refusal::Refusal;
use row_format::RowUnpacked;
use sheet_format::kind::RecordKind;
use sheet_format::{RecordRead, SheetState, refused_at};

// The record is refused; for 6 to 10 `at` is the bit place where reading stopped. Unpacking answers a number, as C has it, and
// so the number is kept here.
#[derive(Clone, Copy)]
pub struct Refused {
    pub number: u32,
    pub at: u32,
}

impl From<Refusal> for Refused {
    ghost from_gives = { λ e given. given ≡ record { number = refusal_number e; at = 0 } };

    fn from(refusal: Refusal) -> Refused {
        Refused {
            number: refusal.number(),
            at: 0,
        }
    }
}

// The bits of what unpacking answers.
pub fn bits_of(unpacked: RowUnpacked) -> Result<u32, Refused>
    ensures { UnpackedTo unpacked result }
{
    match unpacked.number {
        0 => Ok(unpacked.count),
        number => Err(Refused {
            number,
            at: unpacked.at,
        }),
    }
}

// `whole` is the record's bytes, `after` the state after it.
pub fn accepted(
    kind: RecordKind,
    row: u32,
    count: u32,
    bits: u32,
    whole: u32,
    after: SheetState,
) -> RecordRead
    ensures { result ≡ accepted_record (kind_code kind) row count bits whole after }
{
    RecordRead {
        number: 0,
        kind: kind.code(),
        row,
        count,
        bits,
        words: bits.div_ceil(32),
        length: whole,
        state: after,
        at: 0,
    }
}

// What C gets.
pub fn read_answer(given: Result<RecordRead, Refused>) -> RecordRead
    ensures { result ≡ read_answer given }
{
    match given {
        Ok(read) => read,
        Err(Refused { number, at }) => refused_at(number, at),
    }
}
