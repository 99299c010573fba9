// A field of some bits, or the end of the bits.
ghost use Rattle.std.specs.Prelude.{◌≡◌, ◌+◌, ◌^◌, ◌≤◌, ◌<◌, drop};
ghost use Rattle.bitstream.specs.Msb.{msb_bits_of};
ghost use Rattle.map_format.specs.Reading.{read_field};
ghost use Rattle.mat_map.specs.Step.{StepReads, as_stepped};

use answer::refusal::Refusal;
use bitstream::msb_field::{lacks_bits, msb_field};

// value    what was read: a field, a pixel, the photons of a group or of groups
// next     the bit place after it
#[derive(Clone, Copy)]
pub struct Step {
    pub value: u32,
    pub next: usize,
}

// n bits from bit place `at` on.
pub fn field(s: &[u8], at: usize, n: u32) -> Result<Step, Refusal>
    requires n_nonzero { 0 < n }
    requires n_bound { n < 24 }
    requires at_bound { at ≤ 2 ^ 32 }
    ensures { StepReads (msb_bits_of s.now) (at + n) (2 ^ n) (read_field n (drop at (msb_bits_of s.now)))
        (as_stepped result).value (as_stepped result) }
{
    if lacks_bits(s, at, n) {
        return Err(Refusal::MapEnd);
    }
    let value = msb_field(s, at, n);
    Ok(Step {
        value,
        next: at + n as usize,
    })
}
