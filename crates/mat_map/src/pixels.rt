// Pixels, one after the other.
ghost use Rattle.std.specs.Prelude.{◌+◌, ◌*◌, ◌/◌, ◌^◌, ◌≤◌, ◌<◌, length, drop};
ghost use Rattle.bitstream.specs.Bits.{halves_of};
ghost use Rattle.bitstream.specs.Msb.{msb_bits_of};
ghost use Rattle.map_format.specs.Reading.{read_pixels};
ghost use Rattle.mat_map.specs.Step.{as_stepped, Stored};

use crate::count::put_count;
use crate::field::Step;
use crate::pixel::pixel;
use answer::refusal::Refusal;

// n pixels from bit place `at` on, to the counts from `place` on; the value is their photons.
// next   the bit place of pixel i
// sum    the photons of the pixels before it
pub fn pixels(n: usize, s: &[u8], at: usize, own: &mut [u8], place: usize) -> Result<Step, Refusal>
    requires n_nonzero { 0 < n }
    requires n_bound { n ≤ 16 }
    requires at_bound { at + 352 ≤ 2 ^ 32 }
    requires n_in_bounds { place + n ≤ length own.old / 2 }
    ensures { Stored (msb_bits_of s.now) (at + 22 * n) (read_pixels n (drop at (msb_bits_of s.now)))
        place n (halves_of own.old) (halves_of own.new) (as_stepped result) }
{
    let mut next = at;
    let mut sum = 0u32;
    for i in 0..n {
        let p = pixel(s, next)?;
        put_count(own, place + i, p.value);
        sum += p.value;
        next = p.next;
    }
    Ok(Step { value: sum, next })
}
