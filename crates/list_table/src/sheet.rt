// Whether some bytes are a sheet's and no table's.
ghost use Rattle.std.specs.Prelude.{◌≡◌, eqb};
ghost use Rattle.sheet_format.specs.Context.{new_sheet};
ghost use Rattle.sheet_format.specs.Reading.{record_judged};

use sheet_format::SheetState;
use sheet_reader::judge_record;

// Whether they begin with what the first record of a sheet may be, which is a table's.
pub fn begins_sheet(bytes: &[u8]) -> bool
    ensures { result ≡ eqb (record_judged new_sheet bytes.now).number 0 }
{
    let state = SheetState {
        has_table: 0,
        least_row: 0,
    };
    judge_record(b"", bytes, state).number == 0
}
