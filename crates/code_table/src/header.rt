// The words of a table. Document 01, "A table": table id, lowLimit, tableSize, three special strings, then the entries.
ghost use Rattle.std.specs.Prelude.{◌≡◌, ◌*◌, ◌/◌, ◌≤◌, ◌<◌, length, get_or};
ghost use Rattle.bitstream.specs.Bits.{words_of};
ghost use Rattle.row_format.specs.Table.{low_limit, table_size};

use bitstream::number::read_u32;

// Word i of a table.
#[tactic(auto, using(crate::specs::Check::Laws::get_d_words))]
pub fn word_at(table: &[u8], i: usize) -> u32
    requires { i < length table.now / 4 }
    ensures { result ≡ get_or (words_of table.now) i 0 }
{
    read_u32(table, 4 * i)
}

pub fn low_limit(table: &[u8]) -> u32
    requires { 6 ≤ length table.now / 4 }
    ensures { result ≡ low_limit (words_of table.now) }
{
    word_at(table, 1)
}

pub fn table_size(table: &[u8]) -> u32
    requires { 6 ≤ length table.now / 4 }
    ensures { result ≡ table_size (words_of table.now) }
{
    word_at(table, 2)
}
