// Bits moved, masked and taken by a count that varies, with neither a shift by that count nor a loop: products with powers of two
// out of tables, masks, and shifts by fixed counts. A table is a `match`, which the compiler keeps as data; an array it would
// build anew at each use. It knows the entries and makes the shift of some forms again (docs/DECISIONS.md, 122): tests/shifts reads
// what came of these.
ghost use Rattle.std.specs.Prelude.{◌≡◌, ◌+◌, ◌-◌, ◌*◌, ◌/◌, ◌%◌, ◌^◌, ◌<◌};

pub fn power(n: u32) -> u32
    requires { n < 32 }
    ensures { result ≡ 2 ^ n }
{
    wide_power(n) as u32
}

// v above n bits, and `low` in them.
pub fn above(v: u64, n: u32, low: u64) -> u64
    requires n_bound { n < 32 }
    requires low_bound { v * 2 ^ n + low < 2 ^ 64 }
    ensures { result ≡ v * 2 ^ n + low }
{
    v * power_by_table(n) as u64 + low
}

// The n low bits of v.
pub fn low_bits(v: u32, n: u32) -> u32
    requires { n < 32 }
    ensures { result ≡ v % 2 ^ n }
{
    v & (wide_power(n) as u32 - 1)
}

// Bit k of v.
pub fn bit_of(v: u32, k: u32) -> u32
    requires { k < 32 }
    ensures { result ≡ v / 2 ^ k % 2 }
{
    if v & power(k) == 0 {
        return 0;
    }
    1
}

// The 32 bits of v from bit k on.
pub fn window(v: u64, k: u32) -> u32
    requires { k < 32 }
    ensures { result ≡ v / 2 ^ k % 2 ^ 32 }
{
    let up = wide_power(32 - k);
    let high = v / 4294967296 * up;
    let low = v % 4294967296 * up / 4294967296;
    ((high + low) % 4294967296) as u32
}

// The same from a bit of the first byte on, as rows are read: one product.
pub fn window_in_byte(v: u64, k: u32) -> u32
    requires { k < 8 }
    ensures { result ≡ v / 2 ^ k % 2 ^ 32 }
{
    let five_bytes = v % 1099511627776;
    (five_bytes * power_up_to_7(k) as u64 / 128 % 4294967296) as u32
}

fn power_by_table(n: u32) -> u32
    requires { n < 32 }
    ensures { result ≡ 2 ^ n }
{
    let powers = two_powers(n / 2 % 16);
    // 0 where n is even: of the ways to choose one of two, the one that leaves the caller small enough to be put in line
    let odd = powers.odd * (n % 2);
    if odd == 0 { powers.even } else { odd }
}

// even   2 ^ (2 i)
// odd    twice it
#[derive(Clone, Copy)]
struct Powers {
    even: u32,
    odd: u32,
}

fn two_powers(i: u32) -> Powers
    requires { i < 16 }
    ensures { (result.even ≡ 2 ^ (2 * i)) × (result.odd ≡ 2 * 2 ^ (2 * i)) }
{
    match i {
        0 => Powers { even: 1, odd: 2 },
        1 => Powers { even: 4, odd: 8 },
        2 => Powers { even: 16, odd: 32 },
        3 => Powers { even: 64, odd: 128 },
        4 => Powers {
            even: 256,
            odd: 512,
        },
        5 => Powers {
            even: 1024,
            odd: 2048,
        },
        6 => Powers {
            even: 4096,
            odd: 8192,
        },
        7 => Powers {
            even: 16384,
            odd: 32768,
        },
        8 => Powers {
            even: 65536,
            odd: 131072,
        },
        9 => Powers {
            even: 262144,
            odd: 524288,
        },
        10 => Powers {
            even: 1048576,
            odd: 2097152,
        },
        11 => Powers {
            even: 4194304,
            odd: 8388608,
        },
        12 => Powers {
            even: 16777216,
            odd: 33554432,
        },
        13 => Powers {
            even: 67108864,
            odd: 134217728,
        },
        14 => Powers {
            even: 268435456,
            odd: 536870912,
        },
        _ => Powers {
            even: 1073741824,
            odd: 2147483648,
        },
    }
}

// The power that takes bit k to bit 7.
fn power_up_to_7(k: u32) -> u32
    requires { k < 8 }
    ensures { result ≡ 2 ^ (7 - k) }
{
    match k % 8 {
        0 => 128,
        1 => 64,
        2 => 32,
        3 => 16,
        4 => 8,
        5 => 4,
        6 => 2,
        _ => 1,
    }
}

// A table of 64, too large to be put in line. `low_bits` is often called twice with one count; in line the arms of both calls
// would be joined, each with the count known.
fn wide_power(n: u32) -> u64
    requires { n < 64 }
    ensures { result ≡ 2 ^ n }
{
    match n % 64 {
        0 => 1,
        1 => 2,
        2 => 4,
        3 => 8,
        4 => 16,
        5 => 32,
        6 => 64,
        7 => 128,
        8 => 256,
        9 => 512,
        10 => 1024,
        11 => 2048,
        12 => 4096,
        13 => 8192,
        14 => 16384,
        15 => 32768,
        16 => 65536,
        17 => 131072,
        18 => 262144,
        19 => 524288,
        20 => 1048576,
        21 => 2097152,
        22 => 4194304,
        23 => 8388608,
        24 => 16777216,
        25 => 33554432,
        26 => 67108864,
        27 => 134217728,
        28 => 268435456,
        29 => 536870912,
        30 => 1073741824,
        31 => 2147483648,
        32 => 4294967296,
        33 => 8589934592,
        34 => 17179869184,
        35 => 34359738368,
        36 => 68719476736,
        37 => 137438953472,
        38 => 274877906944,
        39 => 549755813888,
        40 => 1099511627776,
        41 => 2199023255552,
        42 => 4398046511104,
        43 => 8796093022208,
        44 => 17592186044416,
        45 => 35184372088832,
        46 => 70368744177664,
        47 => 140737488355328,
        48 => 281474976710656,
        49 => 562949953421312,
        50 => 1125899906842624,
        51 => 2251799813685248,
        52 => 4503599627370496,
        53 => 9007199254740992,
        54 => 18014398509481984,
        55 => 36028797018963968,
        56 => 72057594037927936,
        57 => 144115188075855872,
        58 => 288230376151711744,
        59 => 576460752303423488,
        60 => 1152921504606846976,
        61 => 2305843009213693952,
        62 => 4611686018427387904,
        _ => 9223372036854775808,
    }
}
