// What is carried from record to record.
ghost use Rattle.std.specs.Prelude.{◌≡◌, ◌+◌, ◌≤◌, ◌<◌, length, take};
ghost use Rattle.sheet_format.specs.Context.{new_sheet, state_of};
ghost use Rattle.sheet_format.specs.Kinds.{kind_of};
ghost use Rattle.sheet_format.specs.Stream.{rows_of, end_number};
ghost use Rattle.sheet_stream.specs.Progress.{carried_by, carried_after, table_after, CarriedFits};

use answer::refusal::Refusal;
use sheet_format::kind::{is_row, is_table};
use sheet_format::{RecordRead, SheetState};
use text::put::put_bytes;

// state    what the sheet holds so far
// kept     the bytes of its table, which stands at the front of memory lent for it
// index    the records so far
// rows     the rows among them
#[derive(Clone, Copy)]
pub struct SheetProgress {
    pub state: SheetState,
    pub kept: usize,
    pub index: u64,
    pub rows: u64,
}

impl SheetProgress {
    // What is carried on behind the record in `bytes`, which was accepted as `read` says: a table is kept, a row counted.
    pub fn after(self, read: RecordRead, bytes: &[u8], table: &mut [u8]) -> SheetProgress
        requires in_bounds { 32772 ≤ length table.old }
        requires index_bound { self.index < 18446744073709551615 }
        requires carried_fits { CarriedFits self table.old }
        requires le_length { (6 ≤ read.length) × (read.length ≤ 32778) × (read.length ≤ length bytes.now) }
        ensures fits { CarriedFits result table.new }
        ensures carried { carried_by result table.new ≡ carried_after (carried_by self table.old) read bytes.now }
    {
        let kept = keep_table(read, bytes, table, self.kept);
        let rows = rows_after(read.kind, self.rows);
        SheetProgress {
            state: read.state,
            kept,
            index: self.index + 1,
            rows,
        }
    }
}

pub fn begin() -> SheetProgress
    ensures { result ≡ record { state = state_of new_sheet; kept = 0; index = 0; rows = 0 } }
{
    SheetProgress {
        state: SheetState {
            has_table: 0,
            least_row: 0,
        },
        kept: 0,
        index: 0,
        rows: 0,
    }
}

// A table is kept for the rows that follow. The answer is its bytes, or those known before.
pub fn keep_table(read: RecordRead, bytes: &[u8], table: &mut [u8], known: usize) -> usize
    requires in_bounds { 32772 ≤ length table.old }
    requires known_in_bounds { known ≤ length table.old }
    requires le_length { (6 ≤ read.length) × (read.length ≤ 32778) × (read.length ≤ length bytes.now) }
    ensures within { result ≤ length table.old }
    ensures table { take result table.new ≡ table_after read (take known table.old) bytes.now }
{
    if is_table(read.kind) {
        let end = read.length as usize;
        return put_bytes(table, 0, &bytes[6..end]);
    }
    known
}

pub fn rows_after(kind: u32, rows: u64) -> u64
    requires { rows < 18446744073709551615 }
    ensures { result ≡ rows + rows_of (kind_of kind).holds }
{
    if is_row(kind) { rows + 1 } else { rows }
}

// "A sheet with no records is refused 16". A number, 0 where it is not refused, for that is what reading a record answers C.
pub fn number_at_end(index: u64) -> u32
    ensures { result ≡ end_number index }
{
    if index == 0 {
        Refusal::Place.number()
    } else {
        0
    }
}
