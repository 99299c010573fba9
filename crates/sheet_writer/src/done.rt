// What a write comes to.
ghost use Rattle.std.specs.Prelude.{◌≡◌, MatchResult};
ghost use Rattle.answer.specs.Outcome.{answer_of};
ghost use Rattle.answer.specs.Refusal.{refusal_number};
ghost use Rattle.sheet_writer.specs.Done.{record_answer, CountOf};

use answer::Answer;
use answer::refusal::Refusal;
use sheet_format::{RecordWritten, SheetState};

// So many bytes are written, and the sheet now holds `state`.
#[derive(Clone, Copy)]
pub struct Written {
    pub count: u32,
    pub state: SheetState,
}

// Nothing is written, and the sheet holds what it held. Packing answers a number, as C has it, and so the number is kept here.
#[derive(Clone, Copy)]
pub struct NotWritten {
    pub number: u32,
}

impl From<Refusal> for NotWritten {
    ghost from_gives = { λ e given. given.number ≡ refusal_number e };

    fn from(refusal: Refusal) -> NotWritten {
        NotWritten {
            number: refusal.number(),
        }
    }
}

// The count of what packing answers.
pub fn count_of(packed: Answer) -> Result<u32, NotWritten>
    ensures { CountOf packed result }
{
    match packed.number {
        0 => Ok(packed.count),
        number => Err(NotWritten { number }),
    }
}

// What C gets.
pub fn record_answer(given: Result<Written, NotWritten>) -> RecordWritten
    ensures { result ≡ record_answer given }
{
    match given {
        Ok(Written { count, state }) => RecordWritten {
            number: 0,
            count,
            state,
        },
        Err(NotWritten { number }) => RecordWritten {
            number,
            count: 0,
            state: SheetState {
                has_table: 0,
                least_row: 0,
            },
        },
    }
}
