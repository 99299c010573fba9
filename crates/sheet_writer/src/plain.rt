// Kind 3: a row, its pixels as they are.
ghost use Rattle.std.specs.Prelude.{◌≡◌};
ghost use Rattle.answer.specs.Outcome.{outcome};
ghost use Rattle.answer.specs.Refusal.{result_number};
ghost use Rattle.sheet_format.specs.Context.{Context, state_of};
ghost use Rattle.sheet_format.specs.Kind.PlainRow.{plain_kind};
ghost use Rattle.sheet_format.specs.Writing.{record_written};
ghost use Rattle.sheet_writer.specs.BeforeRoom.{before_room};
ghost use Rattle.sheet_writer.specs.Done.{record_answer};

use crate::done::{NotWritten, Written};
use crate::fields::{ROW_FIELD_BYTES, put_row_fields};
use answer::refusal::Refusal;
use bitstream::copy::copy;
use row_format::MAX_PIXELS;
use row_pixels::any_above;
use sheet_format::SheetState;
use sheet_format::kind::RecordKind;

pub fn write_plain(
    row: u32,
    content: &[u8],
    state: SheetState,
    out: &mut [u8],
) -> Result<Written, NotWritten>
    ensures { (c : Context) → state_of c ≡ state → outcome (record_answer result) out.new
        ≡ record_written 3 (record { row = row }) c content.now out.old }
{
    judge(row, content, state)?;
    // half a pixel at the end counts for nothing
    let pixels = content.len() / 2;
    let end = 2 * pixels;
    let record_bytes = ROW_FIELD_BYTES + end;
    if out.len() < record_bytes {
        return Err(Refusal::Room.into());
    }
    copy(content, end, &mut out[ROW_FIELD_BYTES..]);
    put_row_fields(
        RecordKind::PlainRow,
        row,
        pixels as u32,
        record_bytes as u32,
        out,
    );
    Ok(Written {
        count: record_bytes as u32,
        state: state.after_row(row),
    })
}

// The refusals before the one for room: 16, 11, 4.
fn judge(row: u32, content: &[u8], state: SheetState) -> Result<(), Refusal>
    ensures { (c : Context) → state_of c ≡ state → result_number result ≡ before_room plain_kind (record { row = row }) c content.now }
{
    state.row_place(row)?;
    if MAX_PIXELS < (content.len() / 2) as u64 {
        return Err(Refusal::TooMany);
    }
    if any_above(content) {
        return Err(Refusal::Pixel);
    }
    Ok(())
}
