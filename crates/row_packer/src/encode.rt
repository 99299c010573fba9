// One pixel of a row: both passes, the one that measures and the one that writes, take it from here.
ghost use Rattle.std.specs.Prelude.{◌≤◌};
ghost use Rattle.bitstream.specs.Bits.{words_of};
ghost use Rattle.row_packer.specs.Encode.{Sound, Encodes};

use crate::field::Field;
use crate::item::item_for;
use crate::table::RowTable;
use row_item::Progress;

// field  the bits of the pixel's item
// next   what the row has come to after it
#[derive(Clone, Copy)]
pub struct Encoded {
    pub field: Field,
    pub next: Progress,
}

// Put in line in both passes: an answer that goes through memory costs a row a fourth of its time more.
#[inline(always)]
pub fn encode(table: RowTable, p: Progress, pixel: u32) -> Encoded
    requires sound { Sound p }
    requires pixel_bound { pixel ≤ 4095 }
    ensures { Encodes (words_of table.entry.bytes.now) p pixel result }
{
    let item = item_for(table.header, p, pixel);
    Encoded {
        field: Field::of(table.bytes, table.header.low, item),
        next: p.after(item, pixel),
    }
}
