// What of a table's header every pixel needs, read once a row.
ghost use Rattle.std.specs.Prelude.{◌/◌, ◌≤◌, length};
ghost use Rattle.bitstream.specs.Bits.{words_of};
ghost use Rattle.row_packer.specs.Header.{HeaderOf};

use code_table::header::{low_limit, table_size};

// low    lowLimit
// size   tableSize
#[derive(Clone, Copy)]
pub struct Header {
    pub low: u32,
    pub size: u32,
}

impl Header {
    pub fn of(table: &[u8]) -> Header
        requires { 6 ≤ length table.now / 4 }
        ensures { HeaderOf (words_of table.now) result }
    {
        Header {
            low: low_limit(table),
            size: table_size(table),
        }
    }
}
