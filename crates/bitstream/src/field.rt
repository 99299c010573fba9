// Several bits at a place of a byte slice at once; bits past the end are 0.
ghost use Rattle.std.specs.Prelude.{◌≡◌, ◌+◌, ◌^◌, ◌<◌, take, drop};
ghost use Rattle.bitstream.specs.Bits.{num_of, bits_of, number_of};

use crate::byte::{byte_at, byte_or_zero};
use crate::number::read_u32;
use crate::shift::window_in_byte;

// The 32 bits from bit place `at` on.
pub fn peek32(s: &[u8], at: usize) -> u32
    ensures { result ≡ num_of (take 32 (drop at (bits_of s.now))) }
{
    window_in_byte(five_bytes(s, at / 8), (at % 8) as u32)
}

// The number that five bytes from place i on hold: one load of four and one of the fifth, where they are there.
fn five_bytes(s: &[u8], i: usize) -> u64
    requires { i + 4 < 2 ^ 64 }
    ensures { result ≡ number_of (take 5 (drop i s.now)) }
{
    if i + 4 < s.len() {
        let low = read_u32(s, i) as u64;
        let high = byte_at(s, i + 4) as u64;
        return high * 4294967296 + low;
    }
    let b0 = byte_or_zero(s, i);
    let b1 = byte_or_zero(s, i + 1);
    let b2 = byte_or_zero(s, i + 2);
    let b3 = byte_or_zero(s, i + 3);
    let b4 = byte_or_zero(s, i + 4);
    (((b4 * 256 + b3) * 256 + b2) * 256 + b1) * 256 + b0
}
