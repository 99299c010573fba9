// The items of a row, one after the other, and their pixels.
ghost use Rattle.std.specs.Prelude.{◌≡◌, ◌*◌, ◌≤◌, length};
ghost use Rattle.row_format.specs.Table.{table_number};
ghost use Rattle.row_format.specs.Row.{fresh};
ghost use Rattle.row_unpacker.specs.Row.{items_read, row_reached, RowIs};

use crate::hints::{Hints, fill};
use crate::item::{Fault, hinted_item};
use bitstream::number::put_u16;
use row_item::Progress;

// Reads n pixels under an accepted table to the front of `row`, two bytes each, and gives the bits used.
pub fn read_row(table: &[u8], words: &[u8], n: usize, row: &mut [u8]) -> Result<usize, Fault>
    requires table_value { table_number table.now ≡ 0 }
    requires n_bound { n ≤ 4096 }
    requires n_in_bounds { 2 * n ≤ length row.old }
    ensures { RowIs n row.new result (row_reached n fresh (items_read table.now words.now n)) }
{
    let mut hints = [0u16; 16385];
    fill(table, &mut hints);
    read_items(table, words, &hints, n, row)
}

// The same by hints.
// at   the bit place of the next item
// p    what the row has come to
fn read_items(
    table: &[u8],
    words: &[u8],
    hints: &Hints,
    n: usize,
    row: &mut [u8],
) -> Result<usize, Fault>
    requires table_value { table_number table.now ≡ 0 }
    requires n_bound { n ≤ 4096 }
    requires n_in_bounds { 2 * n ≤ length row.old }
    ensures { RowIs n row.new result (row_reached n fresh (items_read table.now words.now n)) }
{
    let mut at = 0;
    let mut p = Progress::start();
    for i in 0..n {
        let got = hinted_item(table, words, hints, at, p)?;
        put_u16(row, 2 * i, got.pixel);
        p = p.after(got.item, got.pixel);
        at = got.next;
    }
    Ok(at)
}
