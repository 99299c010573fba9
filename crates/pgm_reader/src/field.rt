// A number of a header, after its separators.
ghost use Rattle.std.specs.Prelude.{◌≡◌, ◌≤◌, min, length};
ghost use Rattle.pgm_format.specs.Header.{digit_bytes, field_at, after_field};

use crate::gap::gap_bytes;
use fits_reader::unsigned_digits;
use text::read::is_digit;

// value   the number up to MOST, which no header may have; 0 where there is none: both are refused alike, so that an Option would be
//         told apart nowhere
// end     the place behind its digits
#[derive(Clone, Copy)]
pub struct Field {
    pub value: u32,
    pub end: usize,
}

const MOST: u32 = 65537;

// The field that begins at a place.
pub fn field_at(bytes: &[u8], at: usize) -> Field
    requires { at ≤ length bytes.now }
    ensures value { result.value ≡ min (field_at at bytes.now) 65537 }
    ensures end { result.end ≡ after_field at bytes.now }
    ensures within { result.end ≤ length bytes.now }
{
    let gap = gap_bytes(&bytes[at..]);
    let start = at + gap;
    let end = start + digit_bytes(&bytes[start..]);
    if gap == 0 {
        return Field { value: 0, end };
    }
    Field {
        value: unsigned_digits(&bytes[start..end], MOST),
        end,
    }
}

// How many bytes at the front are digits.
fn digit_bytes(s: &[u8]) -> usize
    ensures digits { result ≡ digit_bytes s.now }
    ensures within { result ≤ length s.now }
{
    s.iter().position(|b| !is_digit(*b)).unwrap_or(s.len())
}
