// Judging and reading the record at the front of some bytes of a sheet. The definitions are sheet_format's.
#![tactic(auto)]

mod answers;
mod frame;
mod keep;
mod line;
mod numbers;
mod packed;
mod plain;
mod row;
mod table;

ghost use Rattle.std.specs.Prelude.{◌≡◌};
ghost use Rattle.answer.specs.Outcome.{outcome};
ghost use Rattle.sheet_format.specs.Context.{context_of};
ghost use Rattle.sheet_format.specs.Reading.{record_judged, record_read};

use answers::read_answer;
pub use frame::judge_length;
use sheet_format::{RecordRead, SheetState};

// The longest content is 4096 numbers of 4 bytes, so a reading that has this room is never refused 5.
const MOST_CONTENT_BYTES: usize = 16384;

// The record at the front of `sheet`, judged: no memory is lent and it is never refused 5. `table` is the bytes of the
// sheet's table.
pub fn judge_record(table: &[u8], sheet: &[u8], state: SheetState) -> RecordRead
    ensures { result ≡ record_judged (context_of table.now state) sheet.now }
{
    let mut nothing = [0u8; 0];
    read_answer(frame::read(table, sheet, state, MOST_CONTENT_BYTES, &mut nothing))
}

// The same, and its content into lent memory: pixels of kinds 2 and 3 as 2 bytes each, numbers of kind 4 as 4 bytes each.
pub fn read_record(table: &[u8], sheet: &[u8], state: SheetState, content: &mut [u8]) -> RecordRead
    ensures { outcome result content.new
        ≡ record_read (context_of table.now state) sheet.now content.old }
{
    let room = content.len();
    read_answer(frame::read(table, sheet, state, room, content))
}
