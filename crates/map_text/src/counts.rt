// Counts from text, a block at a time. One count more than a map has is kept, and none after that: there are too many then, however
// many follow.
ghost use Rattle.std.specs.Prelude.{◌≡◌, List, [], ◌∷◌, ◌++◌, ℕ, ◌≤◌, length};
ghost use Rattle.map_text.specs.Scan.{stepped, counted_by, scan_after, counts_from, last_counts};
ghost use Rattle.map_text.specs.Held.{Held};

use crate::scan::{Scan, is_space, step};
use bitstream::number::put_u16;

// 16384 counts and one more.
pub const KEPT_COUNTS: usize = 16385;

// scan    where the text has come to
// count   the counts that are kept, two bytes each at the front of lent memory
#[derive(Clone, Copy)]
pub struct Taken {
    pub scan: Scan,
    pub count: usize,
}

// At a text's start.
pub fn begin() -> Taken
    ensures { result ≡ record { scan = Scan.Line; count = 0 } }
{
    Taken {
        scan: Scan::Line,
        count: 0,
    }
}

pub fn take_block(block: &[u8], counts: &mut [u8], taken: Taken) -> Taken
    requires { 32770 ≤ length counts.old }
    ensures scan { result.scan ≡ scan_after taken.scan block.now }
    ensures held { (xs : List ℕ) → Held xs taken.count counts.old
        → Held (xs ++ counts_from taken.scan block.now) result.count counts.new }
{
    let mut at = taken;
    for b in block {
        at = take_byte(*b, counts, at);
    }
    at
}

fn take_byte(b: u8, counts: &mut [u8], taken: Taken) -> Taken
    requires { 32770 ≤ length counts.old }
    ensures scan { result.scan ≡ stepped taken.scan b }
    ensures held { (xs : List ℕ) → Held xs taken.count counts.old
        → Held (xs ++ counted_by taken.scan b) result.count counts.new }
{
    let scan = taken.scan;
    let count = keep_ended(b, counts, scan, taken.count);
    Taken {
        scan: step(scan, b),
        count,
    }
}

// A count that the byte ends.
fn keep_ended(b: u8, counts: &mut [u8], scan: Scan, count: usize) -> usize
    requires { 32770 ≤ length counts.old }
    ensures { (xs : List ℕ) → Held xs count counts.old → Held (xs ++ counted_by scan b) result counts.new }
{
    if is_space(b) {
        return keep_last(counts, scan, count);
    }
    count
}

// The count that the text's end ends, or a byte.
pub fn keep_last(counts: &mut [u8], scan: Scan, count: usize) -> usize
    requires { 32770 ≤ length counts.old }
    ensures { (xs : List ℕ) → Held xs count counts.old → Held (xs ++ last_counts scan) result counts.new }
{
    let Scan::Count(v) = scan else {
        return count;
    };
    keep(counts, count, v)
}

fn keep(counts: &mut [u8], count: usize, v: u32) -> usize
    requires { 32770 ≤ length counts.old }
    ensures { (xs : List ℕ) → Held xs count counts.old → Held (xs ++ (v ∷ [])) result counts.new }
{
    if count < KEPT_COUNTS {
        put_u16(counts, 2 * count, v);
        return count + 1;
    }
    count
}
