// The places where a signed number is taken apart into its sign and its magnitude, and put together again.
ghost use Rattle.std.specs.Prelude.{◌≡◌, ◌<◌};
ghost use Rattle.std.specs.Int.Signed.{mag};
ghost use Rattle.adaptive.specs.Number.{twos};
ghost use Rattle.adaptive.specs.Gather.{with_sign};

// v where it is not negative, else -1 - v.
pub fn magnitude(v: i32) -> u64
    ensures { result ≡ mag v }
{
    if v < 0 { (-1 - v) as u64 } else { v as u64 }
}

// Two's complement in the 35 data bits of five bytes: the constant is 128 ^ 5 - 1, whose bits are those of -1.
pub fn data_bits(v: i32) -> u64
    ensures { result ≡ twos v }
{
    let m = magnitude(v);
    if v < 0 { 34359738367 - m } else { m }
}

// m, or -1 - m.
pub fn with_sign(negative: bool, m: u64) -> i32
    requires { m < 2147483648 }
    ensures { result ≡ with_sign negative m }
{
    if negative { -1 - (m as i32) } else { m as i32 }
}
