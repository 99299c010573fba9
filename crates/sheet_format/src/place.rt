// Which records may come next, and what the sheet holds after them: the rules that reading and writing share. Each holds of
// everything that a sheet may hold, as long as the state is what a caller keeps of it.
ghost use Rattle.std.specs.Prelude.{◌≡◌, List, ℕ, ◌<◌, length};
ghost use Rattle.answer.specs.Refusal.{result_number};
ghost use Rattle.sheet_format.specs.Context.{Heading, Context, state_of};
ghost use Rattle.sheet_format.specs.Kind.{a_table, a_row, after_record};
ghost use Rattle.sheet_format.specs.Kind.Table.{table_place};
ghost use Rattle.sheet_format.specs.Kind.Row.{row_place};
ghost use Rattle.sheet_format.specs.Kind.ContourLine.{line_place};

use crate::SheetState;
use answer::refusal::Refusal;

impl SheetState {
    // "The one table comes first": else 16.
    pub fn table_place(self) -> Result<(), Refusal>
        ensures { (c : Context) (h : Heading) → state_of c ≡ self → result_number result ≡ table_place c h }
    {
        match self.has_table {
            0 => Ok(()),
            _ => Err(Refusal::Place),
        }
    }

    // A row comes after the table, and "Row numbers rise strictly" up to 65535, the last that two bytes hold: else 16.
    pub fn row_place(self, row: u32) -> Result<(), Refusal>
        ensures { (c : Context) → state_of c ≡ self → result_number result ≡ row_place c (record { row = row }) }
    {
        if self.has_table == 0 {
            return Err(Refusal::Place);
        }
        if row < self.least_row {
            return Err(Refusal::Place);
        }
        if 65535 < row {
            return Err(Refusal::Place);
        }
        Ok(())
    }

    // A line comes after the table: else 16.
    pub fn line_place(self) -> Result<(), Refusal>
        ensures { (c : Context) (h : Heading) → state_of c ≡ self → result_number result ≡ line_place c h }
    {
        match self.has_table {
            0 => Err(Refusal::Place),
            _ => Ok(()),
        }
    }

    // The state after the one table.
    pub fn after_table(self) -> SheetState
        ensures { (c : Context) (h : Heading) (b : List ℕ) → state_of c ≡ self → length c.tables ≡ 0
            → result ≡ state_of (after_record a_table h b c) }
    {
        SheetState {
            has_table: 1,
            least_row: self.least_row,
        }
    }

    // The state after a row.
    pub fn after_row(self, row: u32) -> SheetState
        requires { row < 65536 }
        ensures { (c : Context) (b : List ℕ) → state_of c ≡ self → result ≡ state_of (after_record a_row (record { row = row }) b c) }
    {
        SheetState {
            has_table: self.has_table,
            least_row: row + 1,
        }
    }
}
