// The bits of an item, as a number and its length.
ghost use Rattle.std.specs.Prelude.{◌≡◌, ◌++◌, ◌+◌, ◌^◌, ◌≤◌, ◌<◌};
ghost use Rattle.bitstream.specs.Bits.{digits, words_of};
ghost use Rattle.row_format.specs.Table.{low_limit, table_size, codeword_at, Accepted};
ghost use Rattle.row_format.specs.Row.{item_bits};
ghost use Rattle.row_packer.specs.Field.{Holds, Codable, plain};

use bitstream::shift::above;
use code_table::header::word_at;
use row_item::Item;

// bits   the bits, the first one lowest
// len    how many they are, at most 27
#[derive(Clone, Copy)]
pub struct Field {
    pub bits: u64,
    pub len: u32,
}

impl Field {
    pub fn of(table: &[u8], low: u32, item: Item) -> Field
        requires accepted { Accepted (words_of table.now) }
        requires low_value { low ≡ low_limit (words_of table.now) }
        requires codable { Codable (words_of table.now) item }
        ensures { Holds (item_bits (words_of table.now) (plain item)) result }
    {
        match item {
            Item::Difference(d) => {
                let k = (d + 4093) as u32;
                Field::codeword(table, 3 + (k - low))
            }
            Item::BadPixel => Field::codeword(table, 1),
            Item::BadBias => Field::codeword(table, 2),
            Item::Escape(height) => {
                let escape = Field::codeword(table, 0);
                escape.with_height(height)
            }
        }
    }

    // Codeword j of a table: 0 escape, 1 bad pixel, 2 bad bias, 3 + i entry i.
    fn codeword(table: &[u8], j: u32) -> Field
        requires accepted { Accepted (words_of table.now) }
        requires j_bound { j < 3 + table_size (words_of table.now) }
        ensures { Holds (codeword_at (words_of table.now) j) result }
    {
        let w = word_at(table, 3 + j as usize);
        Field {
            bits: (w / 32) as u64,
            len: w % 32,
        }
    }

    // The escape codeword and after it a height in 12 bits, "least significant first".
    fn with_height(self, height: u32) -> Field
        requires len_bound { self.len ≤ 15 }
        requires bits_bound { self.bits < 2 ^ self.len }
        requires height_bound { height < 4096 }
        ensures { Holds (digits self.len self.bits ++ digits 12 height) result }
    {
        Field {
            bits: above(height as u64, self.len, self.bits),
            len: self.len + 12,
        }
    }
}
