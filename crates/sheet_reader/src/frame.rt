// The frame of a record: its length and its kind.
ghost use Rattle.std.specs.Prelude.{◌≡◌, ◌≤◌, length};
ghost use Rattle.answer.specs.Refusal.{result_number};
ghost use Rattle.sheet_format.specs.Context.{context_of};
ghost use Rattle.sheet_format.specs.Kinds.{kind_code};
ghost use Rattle.sheet_format.specs.Record.{length_number};
ghost use Rattle.sheet_reader.specs.Answers.{read_answer};
ghost use Rattle.sheet_reader.specs.Leaves.{RecordLeaves, BodyLeaves};

use crate::answers::Refused;
use crate::line::read_line;
use crate::packed::read_packed;
use crate::plain::read_plain;
use crate::table::read_table;
use answer::refusal::Refusal;
use bitstream::number::{read_u16, read_u32};
use sheet_format::kind::RecordKind;
use sheet_format::{RecordRead, SheetState};

// The record at the front of `sheet`. It is refused 5 as if `room` bytes were lent, and its content is written where
// `content` has that room; where it has less, the record is only judged.
pub fn read(
    table: &[u8],
    sheet: &[u8],
    state: SheetState,
    room: usize,
    content: &mut [u8],
) -> Result<RecordRead, Refused>
    ensures { RecordLeaves room (context_of table.now state) sheet.now
        content.old (read_answer result) content.new }
{
    judge_length(sheet)?;
    let whole = 4 + read_u32(sheet, 0);
    let kind = RecordKind::try_from(read_u16(sheet, 4))?;
    let end = whole as usize;
    let body = &sheet[6..end];
    read_body(kind, table, body, whole, state, room, content)
}

// 14 where the length is not in order: "2 to 32,774", and no more than the bytes left.
pub fn judge_length(sheet: &[u8]) -> Result<(), Refusal>
    ensures { result_number result ≡ length_number sheet.now }
{
    if sheet.len() < 4 {
        return Err(Refusal::Record);
    }
    let length = read_u32(sheet, 0) as usize;
    if length < 2 {
        return Err(Refusal::Record);
    }
    if 32774 < length {
        return Err(Refusal::Record);
    }
    if sheet.len() < 4 + length {
        return Err(Refusal::Record);
    }
    Ok(())
}

// The one place where the kinds of records are told apart in reading.
fn read_body(
    kind: RecordKind,
    table: &[u8],
    body: &[u8],
    whole: u32,
    state: SheetState,
    room: usize,
    content: &mut [u8],
) -> Result<RecordRead, Refused>
    requires { length body.now ≤ 32772 }
    ensures { BodyLeaves room (kind_code kind) whole (context_of table.now state) body.now
        content.old (read_answer result) content.new }
{
    match kind {
        RecordKind::Table => read_table(body, whole, state),
        RecordKind::PackedRow => read_packed(table, body, whole, state, room, content),
        RecordKind::PlainRow => read_plain(body, whole, state, room, content),
        RecordKind::ContourLine => read_line(body, whole, state, room, content),
    }
}
