// An accepted table, as a row is packed under it.
ghost use Rattle.std.specs.Prelude.{◌≡◌};
ghost use Rattle.bitstream.specs.Bits.{words_of};
ghost use Rattle.row_format.specs.Table.{table_number, low_limit, table_size, max_item_bits};

use crate::header::Header;

// bytes    the table's
// header   what of them every pixel needs
// most     the bits of its longest item
#[derive(Clone, Copy)]
pub struct RowTable<'a> {
    pub bytes: &'a [u8],
    pub header: Header,
    pub most: u32,
    ghost accepted: { table_number bytes.now ≡ 0 },
    ghost low_value: { header.low ≡ low_limit (words_of bytes.now) },
    ghost size_value: { header.size ≡ table_size (words_of bytes.now) },
    ghost most_value: { most ≡ max_item_bits (words_of bytes.now) },
}

impl<'a> RowTable<'a> {
    pub fn of(bytes: &'a [u8], most: u32) -> RowTable<'a>
        requires accepted { table_number bytes.now ≡ 0 }
        requires most_value { most ≡ max_item_bits (words_of bytes.now) }
        ensures { result.bytes ≡ bytes.entry }
    {
        RowTable {
            bytes,
            header: Header::of(bytes),
            most,
        }
    }
}
