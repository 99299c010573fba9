// Several bits at a place of a byte slice at once, the most significant of each byte first.
ghost use Rattle.std.specs.Prelude.{◌≡◌, ◌+◌, ◌*◌, ◌^◌, ◌≤◌, ◌<◌, length, take, drop, ltb};
ghost use Rattle.bitstream.specs.Bits.{pad};
ghost use Rattle.bitstream.specs.Msb.{msb_num, msb_bits_of};

use crate::byte::byte_or_zero;
use crate::shift::above;

// Whether the bytes end before n bits from bit place `at` on.
pub fn lacks_bits(s: &[u8], at: usize, n: u32) -> bool
    requires { at + n + 7 < 2 ^ 64 }
    ensures { result ≡ ltb (8 * length s.now) (at + n) }
{
    s.len() < (at + n as usize + 7) / 8
}

// The number that n bits from bit place `at` on hold. The bits before them leave through the top of 32, and the n bits after
// that.
pub fn msb_field(s: &[u8], at: usize, n: u32) -> u32
    requires n_bound { n < 24 }
    requires n_bound_2 { at + n ≤ 8 * length s.now }
    ensures { result ≡ msb_num (take n (drop at (msb_bits_of s.now))) }
{
    let four = four_or_zero(s, at / 8);
    let ahead = above(four, (at % 8) as u32, 0) % 4294967296;
    (above(ahead, n, 0) / 4294967296) as u32
}

// The number that four bytes from place i on hold, the first the highest; bytes past the end are 0.
fn four_or_zero(s: &[u8], i: usize) -> u64
    requires { i + 4 < 2 ^ 64 }
    ensures { result ≡ msb_num (pad 32 (msb_bits_of (drop i s.now))) }
{
    if i + 3 < s.len() {
        return four_msb(s, i) as u64;
    }
    let b0 = byte_or_zero(s, i);
    let b1 = byte_or_zero(s, i + 1);
    let b2 = byte_or_zero(s, i + 2);
    let b3 = byte_or_zero(s, i + 3);
    ((b0 * 256 + b1) * 256 + b2) * 256 + b3
}

// The same where all four are there: one load.
fn four_msb(s: &[u8], i: usize) -> u32
    requires { i + 4 ≤ length s.now }
    ensures { result ≡ msb_num (pad 32 (msb_bits_of (drop i s.now))) }
{
    u32::from_be_bytes([s[i], s[i + 1], s[i + 2], s[i + 3]])
}
