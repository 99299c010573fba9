// Writing a number in the fewest bytes.
ghost use Rattle.std.specs.Prelude.{◌≡◌, ◌++◌, suc, ◌≤◌, ◌<◌, length, drop};
ghost use Rattle.answer.specs.Outcome.{outcome};
ghost use Rattle.answer.specs.Refusal.{as_answer};
ghost use Rattle.adaptive.specs.Number.{later_bytes, data_bytes};
ghost use Rattle.adaptive.specs.Calls.{written, signed_written, unsigned_written};

use crate::sign::{data_bits, magnitude};
use answer::Answer;
use answer::refusal::Refusal;

// How many bytes follow the first, where the first alone holds magnitudes below `first`.
fn later_bytes(first: u64, m: u64) -> usize
    requires { first ≤ 128 }
    ensures { result ≡ later_bytes 4 first m }
{
    let mut top = first;
    for k in 0..4 {
        if m < top {
            return k;
        }
        top *= 128;
    }
    4
}

// The last byte first, so that each turn takes the lowest 7 bits that are left.
fn put_bytes(k: usize, d: u64, out: &mut [u8])
    requires { k < length out.old }
    ensures { out.new ≡ data_bytes k d ++ drop (suc k) out.old }
{
    out[k] = (d % 128) as u8;
    let mut rest = d / 128;
    for i in (0..k).rev() {
        out[i] = (128 + rest % 128) as u8;
        rest /= 128;
    }
}

// The bytes at the front of out, and their count; 5 where out has no room for them.
fn write_bytes(k: usize, d: u64, out: &mut [u8]) -> Result<u32, Refusal>
    requires { k ≤ 4 }
    ensures { outcome (as_answer result) out.new ≡ written (data_bytes k d) out.old }
{
    if out.len() <= k {
        return Err(Refusal::Room);
    }
    put_bytes(k, d, out);
    Ok(k as u32 + 1)
}

// Puts value at the front of out in the fewest bytes, and answers their count; 5 where out has no room, and is as it was.
pub fn write_unsigned(value: u32, out: &mut [u8]) -> Answer
    ensures { outcome result out.new ≡ unsigned_written value out.old }
{
    let k = later_bytes(128, value as u64);
    write_bytes(k, value as u64, out).into()
}

// The same of a signed value.
pub fn write_signed(value: i32, out: &mut [u8]) -> Answer
    ensures { outcome result out.new ≡ signed_written value out.old }
{
    let k = later_bytes(64, magnitude(value));
    write_bytes(k, data_bits(value), out).into()
}
