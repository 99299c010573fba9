// The places of a table's strings brought into tree order: the code tree is walked by the next bit of the strings.
ghost use Rattle.std.specs.Prelude.{◌≡◌, ◌+◌, ◌-◌, ◌≤◌, ◌<◌, length};
ghost use Rattle.bitstream.specs.Bits.{words_of};
ghost use Rattle.row_format.specs.Table.{codeword_at};
ghost use Rattle.text.specs.Put.{Put};
ghost use Rattle.table_listing.specs.Order.{picked, order, places};
ghost use Rattle.table_listing.specs.Parted.{Parted};
ghost use Rattle.table_listing.specs.Way.{way_number};

use crate::string::{Way, way_of};

// Where the places that go into the 0-branch begin, and where those that go into the 1-branch do.
#[derive(Clone, Copy)]
struct Parts {
    ends: usize,
    zeros: usize,
}

// The places 0, 1, 2 ..
pub fn number(list: &mut [u16])
    requires { length list.old ≤ 8190 }
    ensures { list.new ≡ places (length list.old) }
{
    for (i, place) in list.iter_mut().enumerate() {
        *place = i as u16;
    }
}

// Brings the strings below a node of the tree into tree order: those that end there, then the 0-branch, then the 1-branch.
// The tree goes `left` bits deeper, and at most 27 in all.
pub fn arrange(table: &[u8], list: &mut [u16], scratch: &mut [u16], left: u32)
    requires left_bound { left ≤ 27 }
    requires list_in_bounds { length list.old ≤ length scratch.old }
    ensures { list.new ≡ order (codeword_at (words_of table.now)) left (27 - left) list.old }
{
    if left == 0 {
        return;
    }
    // a string alone is in order, and most branches have none
    if list.len() < 2 {
        return;
    }
    let parts = part(table, list, scratch, 27 - left);
    let ends = parts.ends;
    let zeros = parts.zeros;
    arrange(table, &mut list[ends..zeros], scratch, left - 1);
    arrange(table, &mut list[zeros..], scratch, left - 1);
}

// Parts the places by what their strings do d bits deep. The places go by way of `scratch`, so that each part keeps their
// order.
fn part(table: &[u8], list: &mut [u16], scratch: &mut [u16], d: u32) -> Parts
    requires d_bound { d < 32 }
    requires list_in_bounds { length list.old ≤ length scratch.old }
    ensures { Parted (codeword_at (words_of table.now)) d list.old result list.new }
{
    let n = list.len();
    let from = &mut scratch[..n];
    from.copy_from_slice(list);
    pick_each(table, from, d, list)
}

// Puts the places that go each of the three ways, one way after the other.
fn pick_each(table: &[u8], from: &[u16], d: u32, out: &mut [u16]) -> Parts
    requires d_bound { d < 32 }
    requires from_len { length from.now ≡ length out.old }
    ensures { Parted (codeword_at (words_of table.now)) d from.now result out.new }
{
    let ends = pick(table, from, d, Way::Ends, out, 0);
    let zeros = pick(table, from, d, Way::Zero, out, ends);
    pick(table, from, d, Way::One, out, zeros);
    Parts { ends, zeros }
}

// Puts those of some places whose strings go one way, in their order.
fn pick(table: &[u8], from: &[u16], d: u32, way: Way, out: &mut [u16], at: usize) -> usize
    requires d_bound { d < 32 }
    requires from_in_bounds { at + length (picked (codeword_at (words_of table.now)) d (way_number way) from.now) ≤ length out.old }
    ensures { Put out.old at
        (picked (codeword_at (words_of table.now)) d (way_number way) from.now) result out.new }
{
    let mut next = at;
    for &place in from {
        if way_of(table, d, place) == way {
            out[next] = place;
            next += 1;
        }
    }
    next
}
