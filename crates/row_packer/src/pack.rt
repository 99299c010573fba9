// Packing a row. Document 01's order of refusals: 1, 2, 3, 11, 4, 5.
ghost use Rattle.std.specs.Prelude.{◌≡◌};
ghost use Rattle.bitstream.specs.Bits.{words_of};
ghost use Rattle.answer.specs.Outcome.{outcome};
ghost use Rattle.answer.specs.Refusal.{as_answer};
ghost use Rattle.row_format.specs.Table.{table_number, max_item_bits};
ghost use Rattle.row_format.specs.Calls.{packed};
ghost use Rattle.row_packer.specs.Known.{Known};

use crate::measure::too_short;
use crate::row::Row;
use crate::table::RowTable;
use crate::write::write;
use answer::Answer;
use answer::refusal::Refusal;
use code_table::check::max_item_bits;

// Packs the pixels under the table into the words. The answer is the number and the bits that the row takes.
pub fn pack(table: &[u8], pixels: &[u8], words: &mut [u8]) -> Answer
    ensures { outcome result words.new ≡ packed table.now pixels.now words.old }
{
    pack_checked(table, pixels, words).into()
}

// The same, with the refusal by name.
fn pack_checked(table: &[u8], pixels: &[u8], words: &mut [u8]) -> Result<u32, Refusal>
    ensures { outcome (as_answer result) words.new ≡ packed table.now pixels.now words.old }
{
    let most = max_item_bits(table)?;
    pack_row(table, most, pixels, words)
}

// The same where the table may be known: to be accepted, with a longest item of `most` bits. Where `most` is 0 nothing is
// known, and the table is checked.
pub fn pack_known(table: &[u8], most: u32, pixels: &[u8], words: &mut [u8]) -> Answer
    requires { Known most table.now }
    ensures { outcome result words.new ≡ packed table.now pixels.now words.old }
{
    if most == 0 {
        return pack(table, pixels, words);
    }
    pack_row(table, most, pixels, words).into()
}

// The same under an accepted table whose longest item has `most` bits.
fn pack_row(table: &[u8], most: u32, pixels: &[u8], words: &mut [u8]) -> Result<u32, Refusal>
    requires table_value { table_number table.now ≡ 0 }
    requires most_value { most ≡ max_item_bits (words_of table.now) }
    ensures { outcome (as_answer result) words.new ≡ packed table.now pixels.now words.old }
{
    let row = Row::of(pixels)?;
    let table = RowTable::of(table, most);
    if too_short(table, row, words.len() / 4) {
        return Err(Refusal::Room);
    }
    Ok(write(table, row, words))
}
