// The code that begins a group: how many zeros come before a one, at most three.
ghost use Rattle.std.specs.Prelude.{◌+◌, ◌^◌, ◌≤◌, drop};
ghost use Rattle.bitstream.specs.Msb.{msb_bits_of};
ghost use Rattle.map_format.specs.Reading.{read_code};
ghost use Rattle.mat_map.specs.Step.{StepReads, as_stepped, code_of};

use crate::field::{Step, field};
use answer::refusal::Refusal;

// next   the bit place after so many zeros
pub fn code(s: &[u8], at: usize) -> Result<Step, Refusal>
    requires { at + 3 ≤ 2 ^ 32 }
    ensures { StepReads (msb_bits_of s.now) (at + 3) 4 (read_code (drop at (msb_bits_of s.now)))
        (code_of (as_stepped result).value) (as_stepped result) }
{
    let mut next = at;
    for zeros in 0..3 {
        let bit = field(s, next, 1)?;
        next = bit.next;
        if bit.value == 1 {
            return Ok(Step { value: zeros, next });
        }
    }
    Ok(Step { value: 3, next })
}
