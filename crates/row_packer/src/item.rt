// Which item a pixel gets: the one place where document 01's rule is applied, as document 02's ticket 5 has it. A difference is
// the document's step, an escape its raw item.
ghost use Rattle.std.specs.Prelude.{◌≤◌};
ghost use Rattle.row_packer.specs.Item.{Chosen, Usable};

use crate::header::Header;
use code_table::entry::signed_difference;
use row_item::{Item, Progress};

pub fn item_for(header: Header, p: Progress, pixel: u32) -> Item
    requires previous_bound { p.previous ≤ 4093 }
    requires pixel_bound { pixel ≤ 4095 }
    ensures { Chosen header p pixel result }
{
    if pixel == 4095 {
        return Item::BadPixel;
    }
    if pixel == 4094 {
        return Item::BadBias;
    }
    // the difference, counted from -4093
    let k = pixel + 4093 - p.previous;
    // "If not": the height itself, never the nearest difference that the table has
    if k < header.low {
        return Item::Escape(pixel);
    }
    if k - header.low < header.usable_differences(p) {
        Item::Difference(signed_difference(k))
    } else {
        Item::Escape(pixel)
    }
}

impl Header {
    // How many of the table's differences a height may be written by: none where it is the row's first, which is raw whether or
    // not the table has it as a difference from 0.
    fn usable_differences(self, p: Progress) -> u32
        ensures { Usable self p result }
    {
        if p.begun { self.size } else { 0 }
    }
}
