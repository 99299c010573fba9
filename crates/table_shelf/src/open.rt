// Opening a shelf. Refusals: 1, 2, 3, table by table, then 5.
ghost use Rattle.std.specs.Prelude.{◌≡◌, [], ◌∷◌, ◌++◌, ◌≤◌, length, drop, replicate};
ghost use Rattle.answer.specs.Outcome.{outcome};
ghost use Rattle.answer.specs.Refusal.{result_number, as_answer};
ghost use Rattle.shelf_format.specs.Calls.{tables_number, shelved, shelf_opened};

use crate::fill::fill_place;
use crate::table::judge_table;
use answer::Answer;
use answer::refusal::Refusal;
use shelf_format::{PLACE_BYTES, SHELF_BYTES};

// Puts the four tables to the common places and leaves all others free. The answer is the number and the bytes of the shelf.
pub fn open(table0: &[u8], table1: &[u8], table2: &[u8], table3: &[u8], shelf: &mut [u8]) -> Answer
    ensures { outcome result shelf.new ≡ shelf_opened table0.now table1.now table2.now
        table3.now shelf.old }
{
    opened(table0, table1, table2, table3, shelf).into()
}

// The same, with the refusal by its name.
fn opened(
    table0: &[u8],
    table1: &[u8],
    table2: &[u8],
    table3: &[u8],
    shelf: &mut [u8],
) -> Result<u32, Refusal>
    ensures { outcome (as_answer result) shelf.new ≡ shelf_opened table0.now table1.now table2.now
        table3.now shelf.old }
{
    judge_tables(table0, table1, table2, table3)?;
    if shelf.len() < SHELF_BYTES {
        return Err(Refusal::Room);
    }
    fill_shelf(table0, table1, table2, table3, shelf);
    Ok(SHELF_BYTES as u32)
}

// Refused as the first table is that is refused.
fn judge_tables(table0: &[u8], table1: &[u8], table2: &[u8], table3: &[u8]) -> Result<(), Refusal>
    ensures { result_number result ≡ tables_number (table0.now ∷ table1.now ∷ table2.now ∷ table3.now ∷ []) }
{
    judge_table(table0)?;
    judge_table(table1)?;
    judge_table(table2)?;
    judge_table(table3)
}

// All twelve places.
fn fill_shelf(table0: &[u8], table1: &[u8], table2: &[u8], table3: &[u8], shelf: &mut [u8])
    requires table3_value { tables_number (table0.now ∷ table1.now ∷ table2.now ∷ table3.now ∷ []) ≡ 0 }
    requires in_bounds { 393264 ≤ length shelf.old }
    ensures { shelf.new ≡ shelved ((table0.now ∷ table1.now ∷ table2.now
        ∷ table3.now ∷ []) ++ replicate 8 []) ++ drop 393264 shelf.old }
{
    fill_place(shelf, 0, table0);
    fill_place(shelf, 1, table1);
    fill_place(shelf, 2, table2);
    fill_place(shelf, 3, table3);
    shelf[4 * PLACE_BYTES..SHELF_BYTES].fill(0);
}
