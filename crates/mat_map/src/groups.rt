// The groups of a map, one after the other.
ghost use Rattle.std.specs.Prelude.{◌≤◌, ◌<◌};
ghost use Rattle.bitstream.specs.Bits.{halves_of};
ghost use Rattle.bitstream.specs.Msb.{msb_bits_of};
ghost use Rattle.map_format.specs.Reading.{read_groups};
ghost use Rattle.map_format.specs.Calls.{map_groups};
ghost use Rattle.mat_map.specs.Step.{as_stepped, Dark, Stored};

use crate::field::Step;
use crate::group::group;
use answer::refusal::Refusal;
use bitstream::shift::power;

// From the first bit on, to counts that are 0; the value is their photons. A group of n pixels takes at most
// 3 + 22 * n bits, which is at most 25 * n, and so a map at most 25 * 16384 = 409600.
// at      the bit place of group i; its counts and those after it are 0
// sum     the photons of the groups before it
pub fn groups(k: u32, s: &[u8], own: &mut [u8]) -> Result<Step, Refusal>
    requires k_nonzero { 0 < k }
    requires k_bound { k ≤ 4 }
    requires dark { Dark (halves_of own.old) }
    ensures { Stored (msb_bits_of s.now) 409600 (read_groups k (map_groups k) (msb_bits_of s.now))
        0 16384 (halves_of own.old) (halves_of own.new) (as_stepped result) }
{
    let n = power(k) as usize;
    let mut at = 0usize;
    let mut sum = 0u32;
    for i in 0..power(14 - k) as usize {
        let g = group(k, s, at, own, i * n)?;
        sum += g.value;
        at = g.next;
    }
    Ok(Step {
        value: sum,
        next: at,
    })
}
