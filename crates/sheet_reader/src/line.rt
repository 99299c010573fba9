// A contour line in a record.
ghost use Rattle.std.specs.Prelude.{◌≡◌, ◌≤◌, length};
ghost use Rattle.answer.specs.Outcome.{lent};
ghost use Rattle.answer.specs.Refusal.{result_number};
ghost use Rattle.sheet_format.specs.Context.{Context, state_of};
ghost use Rattle.sheet_format.specs.Kind.ContourLine.{number_count, line_own, line_kind};
ghost use Rattle.sheet_reader.specs.Answers.{read_answer};
ghost use Rattle.sheet_reader.specs.Leaves.{ContentLeaves};

use crate::answers::{Refused, accepted};
use crate::numbers::{judge_numbers, keep_numbers};
use answer::refusal::Refusal;
use bitstream::number::read_u16;
use row_format::MAX_PIXELS;
use sheet_format::kind::RecordKind;
use sheet_format::{RecordRead, SheetState};

pub fn read_line(
    body: &[u8],
    whole: u32,
    state: SheetState,
    room: usize,
    content: &mut [u8],
) -> Result<RecordRead, Refused>
    ensures { (c : Context) → state_of c ≡ state
        → ContentLeaves line_kind room 4 whole c body.now content.old (read_answer result) content.new }
{
    if body.len() < 2 {
        return Err(Refusal::Record.into());
    }
    state.line_place()?;
    let count = read_u16(body, 0);
    judge_line(body, count, room)?;
    let line = &body[2..];
    keep_numbers(line, count as usize, room, content);
    Ok(accepted(RecordKind::ContourLine, 0, count, 0, whole, state))
}

// "Kind 4: 11, then 12 or 13 at the earliest number", then a leftover, and 5 last.
fn judge_line(body: &[u8], count: u32, room: usize) -> Result<(), Refusal>
    requires in_bounds { 2 ≤ length body.now }
    requires count_value { count ≡ number_count body.now }
    ensures { (c : Context) → result_number result ≡ line_own (lent room) c body.now }
{
    if MAX_PIXELS < count as u64 {
        return Err(Refusal::TooMany);
    }
    let line = &body[2..];
    let used = judge_numbers(line, count as usize)?;
    if used < line.len() {
        return Err(Refusal::Record);
    }
    if room < 4 * count as usize {
        return Err(Refusal::Room);
    }
    Ok(())
}
