// A plain row in a record: two bytes a pixel, unpacked.
ghost use Rattle.std.specs.Prelude.{◌≡◌, ◌≤◌, length};
ghost use Rattle.answer.specs.Outcome.{lent};
ghost use Rattle.answer.specs.Refusal.{result_number};
ghost use Rattle.sheet_format.specs.Context.{Context, state_of};
ghost use Rattle.sheet_format.specs.Kind.Row.{pixel_count};
ghost use Rattle.sheet_format.specs.Kind.PlainRow.{plain_own, plain_kind};
ghost use Rattle.sheet_reader.specs.Answers.{read_answer};
ghost use Rattle.sheet_reader.specs.Leaves.{ContentLeaves};

use crate::answers::{Refused, accepted};
use crate::keep::keep;
use crate::row::{RowFields, row_fields};
use answer::refusal::Refusal;
use row_format::MAX_PIXELS;
use row_pixels::any_above;
use sheet_format::kind::RecordKind;
use sheet_format::{RecordRead, SheetState};

pub fn read_plain(
    body: &[u8],
    whole: u32,
    state: SheetState,
    room: usize,
    content: &mut [u8],
) -> Result<RecordRead, Refused>
    ensures { (c : Context) → state_of c ≡ state
        → ContentLeaves plain_kind room 3 whole c body.now content.old (read_answer result) content.new }
{
    let RowFields { row, count } = row_fields(body, state)?;
    judge_pixels(body, count, room)?;
    let pixels = &body[4..];
    keep(pixels, 2 * count as usize, room, content);
    Ok(accepted(
        RecordKind::PlainRow,
        row,
        count,
        0,
        whole,
        state.after_row(row),
    ))
}

// "Kind 3: 11, 14 unless the bytes are twice the count, 4", and 5 last.
fn judge_pixels(body: &[u8], count: u32, room: usize) -> Result<(), Refusal>
    requires in_bounds { 4 ≤ length body.now }
    requires count_value { count ≡ pixel_count body.now }
    ensures { (c : Context) → result_number result ≡ plain_own (lent room) c body.now }
{
    if MAX_PIXELS < count as u64 {
        return Err(Refusal::TooMany);
    }
    let pixels = &body[4..];
    let bytes = 2 * count as usize;
    if pixels.len() != bytes {
        return Err(Refusal::Record);
    }
    if any_above(pixels) {
        return Err(Refusal::Pixel);
    }
    if room < bytes {
        return Err(Refusal::Room);
    }
    Ok(())
}
