// Reading a number from the front of some bytes.
ghost use Rattle.std.specs.Prelude.{◌≡◌, cond, leb};
ghost use Rattle.adaptive.specs.Number.{accepted, rejected, read_as, signed_type, unsigned_type};
ghost use Rattle.adaptive.specs.Calls.{reading_of, signed_read, unsigned_read};
ghost use Rattle.adaptive.specs.Gather.{with_sign};

use crate::gather::gather;
use crate::number::Number;
use crate::sign::with_sign;
use crate::{SignedRead, UnsignedRead};
use answer::refusal::Refusal;

// The unsigned number at the front of s. 12 where the bytes end before it does; 13 where a fifth byte asks for a sixth, or
// the value is above 4294967295.
pub fn read_unsigned(s: &[u8]) -> UnsignedRead
    ensures { result ≡ unsigned_read s.now }
{
    unsigned_number(s).into()
}

// The signed number at the front of s. 12 and 13 as above, the range being that of an i32.
#[inline(always)]
pub fn read_signed(s: &[u8]) -> SignedRead
    ensures { result ≡ signed_read s.now }
{
    signed_number(s).into()
}

fn unsigned_number(s: &[u8]) -> Result<Number<u32>, Refusal>
    ensures { reading_of result ≡ read_as unsigned_type s.now }
{
    let Number { value, used } = gather(s)?;
    if 4294967295 < value.raw {
        return Err(Refusal::NumberRange);
    }
    Ok(Number {
        value: value.raw as u32,
        used,
    })
}

// What read_signed answers, for a caller that isn't C. Both are put in line at each of their calls: a line is read by them, and as
// calls with an answer in memory they take more than twice the time.
#[inline(always)]
pub fn signed_number(s: &[u8]) -> Result<Number<i32>, Refusal>
    ensures { reading_of result ≡ read_as signed_type s.now }
{
    let Number { value, used } = gather(s)?;
    // the sign is the highest of the data bits
    if value.raw < value.span / 2 {
        return in_range(false, value.raw, used);
    }
    in_range(true, value.span - 1 - value.raw, used)
}

// A whole number of this sign and magnitude.
fn in_range(negative: bool, m: u64, used: u32) -> Result<Number<i32>, Refusal>
    ensures { reading_of result ≡ cond (leb m 2147483647) (accepted (with_sign negative m) used) (rejected 13) }
{
    if 2147483647 < m {
        return Err(Refusal::NumberRange);
    }
    Ok(Number {
        value: with_sign(negative, m),
        used,
    })
}
