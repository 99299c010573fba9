// A number that was read, and what C gets of it.
ghost use Rattle.std.specs.Prelude.{◌≡◌};
ghost use Rattle.adaptive.specs.Calls.{reading_of, signed_answer, unsigned_answer};

use crate::{SignedRead, UnsignedRead};
use answer::refusal::Refusal;

// What the bytes at the front stand for, and how many they are.
#[derive(Clone, Copy)]
pub struct Number<T> {
    pub value: T,
    pub used: u32,
}

impl From<Result<Number<i32>, Refusal>> for SignedRead {
    ghost from_gives = { λ r answer. answer ≡ signed_answer (reading_of r) };

    fn from(given: Result<Number<i32>, Refusal>) -> SignedRead {
        match given {
            Ok(Number { value, used }) => SignedRead {
                number: 0,
                value,
                used,
            },
            Err(refusal) => SignedRead {
                number: refusal.number(),
                value: 0,
                used: 0,
            },
        }
    }
}

impl From<Result<Number<u32>, Refusal>> for UnsignedRead {
    ghost from_gives = { λ r answer. answer ≡ unsigned_answer (reading_of r) };

    fn from(given: Result<Number<u32>, Refusal>) -> UnsignedRead {
        match given {
            Ok(Number { value, used }) => UnsignedRead {
                number: 0,
                value,
                used,
            },
            Err(refusal) => UnsignedRead {
                number: refusal.number(),
                value: 0,
                used: 0,
            },
        }
    }
}
