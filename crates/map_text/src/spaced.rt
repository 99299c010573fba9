// Counts, two little-endian bytes each, one after another on a line.
ghost use Rattle.std.specs.Prelude.{◌+◌, ◌*◌, ◌/◌, ◌≤◌, ◌<◌, length, take, drop, get_or};
ghost use Rattle.bitstream.specs.Bits.{halves_of};
ghost use Rattle.text.specs.Text.{field};
ghost use Rattle.text.specs.Put.{Put};
ghost use Rattle.map_text.specs.MapText.{spaced};

use row_pixels::pixel_at;
use text::number::put_field;

// n counts from `first` on, a blank before each.
// next   the place after i of them
pub fn put_spaced(out: &mut [u8], at: usize, counts: &[u8], first: usize, n: usize) -> usize
    requires n_in_bounds { at + 6 * n + 20 ≤ length out.old }
    requires n_in_bounds_2 { first + n ≤ length counts.now / 2 }
    ensures put { Put out.old at (spaced (take n (drop first (halves_of counts.now))))
        result out.new }
    ensures most { result ≤ at + 6 * n }
{
    let mut next = at;
    for i in 0..n {
        next = put_count(out, next, b" ", counts, first + i);
    }
    next
}

// Some words and a count, which has at most 5 digits.
pub fn put_count(out: &mut [u8], at: usize, words: &[u8], counts: &[u8], i: usize) -> usize
    requires words_in_bounds { at + length words.now + 20 ≤ length out.old }
    requires i_in_bounds { i < length counts.now / 2 }
    ensures put { Put out.old at (field words.now (get_or (halves_of counts.now) i 0))
        result out.new }
    ensures most { result ≤ at + length words.now + 5 }
{
    let count = pixel_at(counts, i);
    put_field(out, at, words, count as u64)
}
