// The bytes of the number at the front of a slice, before anything is made of a sign or a range.
ghost use Rattle.std.specs.Prelude.{◌≡◌};
ghost use Rattle.adaptive.specs.Number.{front};
ghost use Rattle.adaptive.specs.Calls.{reading_of};
ghost use Rattle.adaptive.specs.Gather.{gathered_of};

use crate::number::Number;
use answer::refusal::Refusal;

// A whole number's data bits, and how many different ones that many bytes can hold.
#[derive(Clone, Copy)]
pub struct Data {
    pub raw: u64,
    pub span: u64,
}

pub fn gather(s: &[u8]) -> Result<Number<Data>, Refusal>
    ensures { reading_of result ≡ gathered_of (front 5 s.now) }
{
    // i bytes are taken, and another follows each; raw is their data bits, below span, which is 128 to the power i
    let mut raw: u64 = 0;
    let mut span: u64 = 1;
    for i in 0..5 {
        let Some(&b) = s.get(i) else {
            return Err(Refusal::BytesEnd);
        };
        raw = raw * 128 + (b % 128) as u64;
        span *= 128;
        if b < 128 {
            return Ok(Number {
                value: Data { raw, span },
                used: i as u32 + 1,
            });
        }
    }
    Err(Refusal::NumberRange)
}
