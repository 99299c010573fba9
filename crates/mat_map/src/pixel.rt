// A pixel by itself.
ghost use Rattle.std.specs.Prelude.{◌+◌, ◌^◌, ◌≤◌, drop};
ghost use Rattle.bitstream.specs.Msb.{msb_bits_of};
ghost use Rattle.map_format.specs.Reading.{read_pixel};
ghost use Rattle.mat_map.specs.Step.{StepReads, as_stepped, four_or_more, wide_only};

use crate::field::{Step, field};
use answer::refusal::Refusal;
use bitstream::msb_field::{lacks_bits, msb_field};

// The pixel at bit place `at`. Where the bits of the longest one are there they are looked at once.
pub fn pixel(s: &[u8], at: usize) -> Result<Step, Refusal>
    requires { at + 22 ≤ 2 ^ 32 }
    ensures { StepReads (msb_bits_of s.now) (at + 22) 65536 (read_pixel (drop at (msb_bits_of s.now)))
        (as_stepped result).value (as_stepped result) }
{
    if lacks_bits(s, at, 22) {
        return two_bits(s, at);
    }
    let ahead = msb_field(s, at, 22);
    let two = ahead / 1048576 % 4;
    if two < 3 {
        return Ok(Step {
            value: two,
            next: at + 2,
        });
    }
    let four = ahead / 65536 % 16;
    if four < 15 {
        return Ok(Step {
            value: 3 + four,
            next: at + 6,
        });
    }
    let wide = ahead % 65536;
    if 17 < wide {
        return Ok(Step {
            value: wide,
            next: at + 22,
        });
    }
    Err(Refusal::MapPixel)
}

// The same field after field: two bits for 0, 1 and 2, or more of them.
fn two_bits(s: &[u8], at: usize) -> Result<Step, Refusal>
    requires { at + 22 ≤ 2 ^ 32 }
    ensures { StepReads (msb_bits_of s.now) (at + 22) 65536 (read_pixel (drop at (msb_bits_of s.now)))
        (as_stepped result).value (as_stepped result) }
{
    let two = field(s, at, 2)?;
    if two.value < 3 {
        return Ok(two);
    }
    four_bits(s, two.next)
}

// After 11: four bits for 3 to 17, or more of them.
fn four_bits(s: &[u8], at: usize) -> Result<Step, Refusal>
    requires { at + 20 ≤ 2 ^ 32 }
    ensures { StepReads (msb_bits_of s.now) (at + 20) 65536 (four_or_more (drop at (msb_bits_of s.now)))
        (as_stepped result).value (as_stepped result) }
{
    let four = field(s, at, 4)?;
    if four.value < 15 {
        return Ok(Step {
            value: 3 + four.value,
            next: four.next,
        });
    }
    sixteen_bits(s, four.next)
}

// After 111111: sixteen bits for those above 17.
fn sixteen_bits(s: &[u8], at: usize) -> Result<Step, Refusal>
    requires { at + 16 ≤ 2 ^ 32 }
    ensures { StepReads (msb_bits_of s.now) (at + 16) 65536 (wide_only (drop at (msb_bits_of s.now)))
        (as_stepped result).value (as_stepped result) }
{
    let wide = field(s, at, 16)?;
    if 17 < wide.value {
        return Ok(wide);
    }
    Err(Refusal::MapPixel)
}
