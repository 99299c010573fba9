// Kind 4: a contour line.
ghost use Rattle.std.specs.Prelude.{◌≡◌};
ghost use Rattle.answer.specs.Outcome.{outcome};
ghost use Rattle.answer.specs.Refusal.{result_number};
ghost use Rattle.sheet_format.specs.Context.{Heading, Context, state_of};
ghost use Rattle.sheet_format.specs.Kind.ContourLine.{line_kind};
ghost use Rattle.sheet_format.specs.Writing.{record_written};
ghost use Rattle.sheet_writer.specs.BeforeRoom.{before_room};
ghost use Rattle.sheet_writer.specs.Done.{record_answer};

use crate::done::{NotWritten, Written};
use crate::fields::put_line_fields;
use crate::numbers::{line_bytes, put_numbers};
use answer::refusal::Refusal;
use row_format::MAX_PIXELS;
use sheet_format::SheetState;
use sheet_format::kind::RecordKind;

// Length 4, kind 2 and count 2.
const FIELD_BYTES: usize = 8;

pub fn write_line(content: &[u8], state: SheetState, out: &mut [u8]) -> Result<Written, NotWritten>
    ensures { (c : Context) (h : Heading) → state_of c ≡ state
        → outcome (record_answer result) out.new ≡ record_written 4 h c content.now out.old }
{
    judge(content, state)?;
    let numbers = content.len() / 4;
    let record_bytes = FIELD_BYTES + line_bytes(content);
    if out.len() < record_bytes {
        return Err(Refusal::Room.into());
    }
    put_numbers(content, &mut out[FIELD_BYTES..]);
    put_line_fields(
        RecordKind::ContourLine,
        numbers as u32,
        record_bytes as u32,
        out,
    );
    Ok(Written {
        count: record_bytes as u32,
        state,
    })
}

// The refusals before the one for room: 16 and 11.
fn judge(content: &[u8], state: SheetState) -> Result<(), Refusal>
    ensures { (c : Context) (h : Heading) → state_of c ≡ state → result_number result ≡ before_room line_kind h c content.now }
{
    state.line_place()?;
    if MAX_PIXELS < (content.len() / 4) as u64 {
        return Err(Refusal::TooMany);
    }
    Ok(())
}
