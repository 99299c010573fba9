// What the papers say of sheets. The definitions are in specs/; here are the types, limits and rules that the code shares.
#![tactic(auto)]

pub mod kind;
pub mod place;
pub mod word;

ghost use Rattle.std.specs.Prelude.{◌≡◌};
ghost use Rattle.sheet_format.specs.Reading.{refused_record};

use row_format::place::place_shown;

// Document 01: "The length is 2 to 32,774": a record is four bytes more.
pub const MAX_RECORD_BYTES: usize = 32778;

// What a sheet holds so far: how many tables, of which any number but 0 means that it has its one, and the least row number
// that may come next (0 to 65536).
#[repr(C)]
#[derive(Clone, Copy)]
pub struct SheetState {
    pub has_table: u32,
    pub least_row: u32,
}

// What reading a record answers, as C has it: document 01's number, and where it is 0 what the record holds and the state after it. A
// refusal has 0 for every value, the state's too: the sheet still holds what it held; but for 6 to 10 `at` is the bit place
// where reading stopped, from the row's first word. count is the words of a table, the pixels of a row, the numbers of a line;
// row is for rows, bits and words for packed rows; length is the bytes of the whole record.
#[repr(C)]
#[derive(Clone, Copy)]
pub struct RecordRead {
    pub number: u32,
    pub kind: u32,
    pub row: u32,
    pub count: u32,
    pub bits: u32,
    pub words: u32,
    pub length: u32,
    pub state: SheetState,
    pub at: u32,
}

// What reading answers for a refused record: "Every refusal returns 0 for all counts and values", but for the place of 6 to 10.
// It takes a number, since unpacking answers one, as C has it.
pub fn refused_at(number: u32, at: u32) -> RecordRead
    ensures { result ≡ refused_record at number }
{
    RecordRead {
        number,
        kind: 0,
        row: 0,
        count: 0,
        bits: 0,
        words: 0,
        length: 0,
        state: SheetState {
            has_table: 0,
            least_row: 0,
        },
        at: place_shown(number, at),
    }
}

// The same where no bits were read.
pub fn refused(number: u32) -> RecordRead
    ensures { result ≡ refused_record 0 number }
{
    refused_at(number, 0)
}

// What writing a record answers, as C has it: the number, and where it is 0 the bytes written and the state after the record. A refusal
// has 0 for the count and for the state's numbers.
#[repr(C)]
#[derive(Clone, Copy)]
pub struct RecordWritten {
    pub number: u32,
    pub count: u32,
    pub state: SheetState,
}
