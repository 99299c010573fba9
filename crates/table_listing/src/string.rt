// The strings of a table by their places: 0 raw, 1 bad pixel, 2 bad bias, 3 + i entry i.
ghost use Rattle.std.specs.Prelude.{◌≡◌, ◌+◌, ◌<◌, get_or};
ghost use Rattle.bitstream.specs.Bits.{words_of};
ghost use Rattle.row_format.specs.Table.{codeword_at};
ghost use Rattle.table_listing.specs.Order.{way};
ghost use Rattle.table_listing.specs.Way.{way_number};

use bitstream::shift::bit_of;
use code_table::header::word_at;

// A string ends at a node of the tree, or goes into its 0-branch or its 1-branch.
#[derive(Clone, Copy, PartialEq, Eq)]
pub enum Way {
    Ends,
    Zero,
    One,
}

// The word that holds a string, and 0, the word of no string, past the table's end.
pub fn string_word(table: &[u8], place: u16) -> u32
    ensures { result ≡ get_or (words_of table.now) (3 + place) 0 }
{
    let i = 3 + place as usize;
    if i < table.len() / 4 {
        return word_at(table, i);
    }
    0
}

// Where a string goes at a node of the tree that is d bits deep.
pub fn way_of(table: &[u8], d: u32, place: u16) -> Way
    requires { d < 32 }
    ensures { way_number result ≡ way d (codeword_at (words_of table.now) place) }
{
    let w = string_word(table, place);
    if w % 32 <= d {
        return Way::Ends;
    }
    if bit_of(w / 32, d) == 0 {
        Way::Zero
    } else {
        Way::One
    }
}
