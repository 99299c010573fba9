// The listing of a sheet, a record a call: the record is judged, and its line stands at the front of lent memory. The
// definitions are in specs/Line.antt, specs/Listed.antt and, of a whole sheet, specs/Listing.antt.
#![tactic(auto)]

mod give;
mod line;

ghost use Rattle.std.specs.Prelude.{◌≡◌, ◌≤◌, length};
ghost use Rattle.answer.specs.Outcome.{outcome};
ghost use Rattle.row_format.specs.Table.{table_number};
ghost use Rattle.sheet_format.specs.Context.{context_of};
ghost use Rattle.sheet_listing.specs.Line.{answer_line, last_line};
ghost use Rattle.sheet_listing.specs.Listed.{line_given, line_listed, LineShort, record_listed};

use answer::Answer;
use give::give;
use line::{put_last_line, put_record_line};
use sheet_format::{RecordRead, SheetState, refused};
use sheet_reader::judge_record;

// What listing a record answers: what judging it answers, and the bytes of its line. A refusal, 5 among them, has no line. No
// Result: a caller goes on with the answer of judging, refused or not, as with that of reading.
#[derive(Clone, Copy)]
pub struct ListedRecord {
    pub read: RecordRead,
    pub count: u32,
}

// The record at the front of `sheet` is judged, and its line put at the front of `out`; 5 where it does not fit. `table` is
// the bytes of the sheet's table, `state` what the sheet holds so far. A line has at most 128 bytes.
pub fn list_record(table: &[u8], sheet: &[u8], state: SheetState, out: &mut [u8]) -> ListedRecord
    ensures listed { outcome result out.new ≡ record_listed (context_of table.now state) sheet.now out.old }
    ensures most { LineShort (context_of table.now state) sheet.now }
{
    let read = judge_record(table, sheet, state);
    let number = read.number;
    if number != 0 {
        return ListedRecord { read, count: 0 };
    }
    let end = read.length as usize;
    let body = &sheet[6..end];
    list_accepted(read, body, out)
}

// The same of a record that is accepted.
fn list_accepted(read: RecordRead, body: &[u8], out: &mut [u8]) -> ListedRecord
    requires { read.kind ≡ 1 → table_number body.now ≡ 0 }
    ensures listed { outcome result out.new ≡ line_listed (answer_line read body.now) read out.old }
    ensures most { length (answer_line read body.now) ≤ 128 }
{
    let mut text = [0u8; 128];
    let n = put_record_line(&mut text, read, body);
    match give(&text[..n], out) {
        Ok(count) => ListedRecord { read, count },
        Err(full) => ListedRecord {
            read: refused(full.number()),
            count: 0,
        },
    }
}

// The last line of a listing: `done rows N` where the number is 0, else `refused N at record K`, where K is the index, and for 6
// to 10 `bit B` behind it. It is put at the front of `out`; 5 where it does not fit.
pub fn list_end(number: u32, bit: u32, index: u64, rows: u64, out: &mut [u8]) -> Answer
    ensures given { outcome result out.new ≡ line_given (last_line number bit index rows) out.old }
    ensures most { length (last_line number bit index rows) ≤ 128 }
{
    let mut text = [0u8; 128];
    let n = put_last_line(&mut text, number, bit, index, rows);
    give(&text[..n], out).into()
}
