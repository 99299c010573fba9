// Whether a row fits the words lent, found before anything is written: a refusal has to leave the lent words as found.
ghost use Rattle.std.specs.Prelude.{◌≡◌, ◌≤◌, length, ltb};
ghost use Rattle.bitstream.specs.Bits.{words_of, halves_of, words_for};
ghost use Rattle.row_format.specs.Row.{row_bits};

use crate::encode::encode;
use crate::row::Row;
use crate::table::RowTable;
use row_item::Progress;
use row_pixels::pixel_at;

// Whether so many words are too few for the row.
pub fn too_short(table: RowTable, row: Row, lent: usize) -> bool
    ensures { result ≡ ltb lent (words_for (length (row_bits (words_of table.entry.bytes.now) (halves_of row.entry.pixels.now)))) }
{
    let longest = (row.pixels.len() / 2) as u32 * table.most;
    // room for the longest row suffices for every row, unmeasured
    if words_for(longest) <= lent {
        return false;
    }
    lent < words_for(measure(table, row))
}

fn words_for(bits: u32) -> usize
    requires { bits ≤ 110592 }
    ensures { result ≡ words_for bits }
{
    ((bits + 31) / 32) as usize
}

fn measure(table: RowTable, row: Row) -> u32
    ensures { result ≡ length (row_bits (words_of table.entry.bytes.now) (halves_of row.entry.pixels.now)) }
{
    // p      what the row has come to after i pixels
    // bits   the bits of their items
    let mut p = Progress::start();
    let mut bits: u32 = 0;
    for i in 0..row.pixels.len() / 2 {
        let pixel = pixel_at(row.pixels, i);
        let coded = encode(table, p, pixel);
        bits += coded.field.len;
        p = coded.next;
    }
    bits
}
