// A map's counts, two little-endian bytes each, as text.
ghost use Rattle.std.specs.Prelude.{◌+◌, ◌/◌, ◌≤◌, length, take, drop};
ghost use Rattle.bitstream.specs.Bits.{halves_of};
ghost use Rattle.text.specs.Put.{Put};
ghost use Rattle.map_text.specs.MapText.{row_text, map_text, done_bits_line, listing_text};

use crate::spaced::{put_count, put_spaced};
use text::line::put_refused_line;
use text::number::put_field;
use text::put::put_bytes;

// What reading a map comes to, as text: the number that refuses it, or its counts and the bits that they used, as the call for C answers.
pub fn put_listing(out: &mut [u8], counts: &[u8], number: u32, bits: u32) -> usize
    requires in_bounds { 98432 ≤ length out.old }
    requires in_bounds_2 { 16384 ≤ length counts.now / 2 }
    ensures put { Put out.old 0 (listing_text number bits (halves_of counts.now)) result out.new }
    ensures most { result ≤ 98432 }
{
    if number != 0 {
        return put_refused_line(out, 0, number);
    }
    let next = put_map(out, counts);
    put_done_bits(out, next, bits)
}

// `done bits B`
fn put_done_bits(out: &mut [u8], at: usize, bits: u32) -> usize
    requires { at + 128 ≤ length out.old }
    ensures put { Put out.old at (done_bits_line bits) result out.new }
    ensures most { result ≤ at + 128 }
{
    let next = put_field(out, at, b"done bits ", bits as u64);
    put_bytes(out, next, b"\n")
}

// next   the place after the rows before `row`
fn put_map(out: &mut [u8], counts: &[u8]) -> usize
    requires in_bounds { 98432 ≤ length out.old }
    requires in_bounds_2 { 16384 ≤ length counts.now / 2 }
    ensures put { Put out.old 0 (map_text (halves_of counts.now)) result out.new }
    ensures most { result ≤ 98304 }
{
    let mut next = 0;
    for row in 0..128 {
        next = put_row(out, next, counts, 128 * row);
    }
    next
}

// The row whose counts are those from `first` on.
fn put_row(out: &mut [u8], at: usize, counts: &[u8], first: usize) -> usize
    requires at_in_bounds { at + 800 ≤ length out.old }
    requires first_in_bounds { first + 128 ≤ length counts.now / 2 }
    ensures put { Put out.old at (row_text (take 128 (drop first (halves_of counts.now))))
        result out.new }
    ensures most { result ≤ at + 768 }
{
    let next = put_count(out, at, b"", counts, first);
    let end = put_spaced(out, next, counts, first + 1, 127);
    put_bytes(out, end, b"\n")
}
