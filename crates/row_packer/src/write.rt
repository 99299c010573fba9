// The words of a row that fits the memory lent.
ghost use Rattle.std.specs.Prelude.{◌*◌, ◌≤◌, length};
ghost use Rattle.bitstream.specs.Bits.{words_of, halves_of, words_for};
ghost use Rattle.row_format.specs.Row.{row_bits};
ghost use Rattle.row_packer.specs.Write.{Written};

use crate::encode::encode;
use crate::row::Row;
use crate::table::RowTable;
use bitstream::writer::{finish, put, total};
use row_item::Progress;
use row_pixels::pixel_at;

// The answer is the count of the row's bits.
pub fn write(table: RowTable, row: Row, words: &mut [u8]) -> u32
    requires { 4 * words_for (length (row_bits (words_of table.bytes.now) (halves_of row.pixels.now))) ≤ length words.old }
    ensures { Written (words_of table.entry.bytes.now) (halves_of row.entry.pixels.now) words.old words.new result }
{
    // w      holds the bits of the first i pixels
    // p      what the row has come to after them
    let mut w = bitstream::writer::start();
    let mut p = Progress::start();
    for i in 0..row.pixels.len() / 2 {
        let pixel = pixel_at(row.pixels, i);
        let coded = encode(table, p, pixel);
        let field = coded.field;
        w = put(words, w, field.bits, field.len);
        p = coded.next;
    }
    finish(words, w);
    total(w)
}
