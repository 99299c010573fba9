// The call: the one place where the kinds of records are told apart in writing.
ghost use Rattle.std.specs.Prelude.{◌≡◌};
ghost use Rattle.answer.specs.Outcome.{outcome};
ghost use Rattle.sheet_format.specs.Context.{context_of};
ghost use Rattle.sheet_format.specs.Writing.{record_written};
ghost use Rattle.sheet_writer.specs.Done.{record_answer};

use crate::done::{NotWritten, Written, record_answer};
use crate::line::write_line;
use crate::packed::put_packed;
use crate::plain::write_plain;
use crate::table::write_table;
use sheet_format::kind::RecordKind;
use sheet_format::{RecordWritten, SheetState};

// Writes a record to the front of `out`, and answers its bytes and the state of the sheet after it. The content is a
// table's bytes (kind 1), pixels of two bytes (kinds 2 and 3) or numbers of four bytes (kind 4); `row` is a row's number,
// `table` the sheet's table, which kind 2 is packed under, and `state` what the sheet holds so far. Refused 15, 16, then
// 1 to 3, 11, 4, 5, with the memory as it was.
pub fn write_record(
    kind: u32,
    row: u32,
    content: &[u8],
    table: &[u8],
    state: SheetState,
    out: &mut [u8],
) -> RecordWritten
    ensures { outcome result out.new ≡ record_written kind (record { row = row })
        (context_of table.now state) content.now out.old }
{
    record_answer(put_record(kind, row, content, table, state, out))
}

fn put_record(
    kind: u32,
    row: u32,
    content: &[u8],
    table: &[u8],
    state: SheetState,
    out: &mut [u8],
) -> Result<Written, NotWritten>
    ensures { outcome (record_answer result) out.new ≡ record_written kind (record { row = row })
        (context_of table.now state) content.now out.old }
{
    match RecordKind::try_from(kind)? {
        RecordKind::Table => write_table(content, state, out),
        RecordKind::PackedRow => put_packed(row, content, table, 0, state, out),
        RecordKind::PlainRow => write_plain(row, content, state, out),
        RecordKind::ContourLine => write_line(content, state, out),
    }
}
