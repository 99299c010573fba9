// The leaves of `bitstream::shift`, each compiled on its own and for every input, so that tests/shifts can read their machine
// code: in the library they are parts of their callers. No part of the library.
#![tactic(auto)]

ghost use Rattle.std.specs.Prelude.{◌≡◌, ◌+◌, ◌*◌, ◌/◌, ◌%◌, ◌^◌};

use bitstream::shift;

#[unsafe(no_mangle)]
pub extern "C" fn leaf_power(n: u32) -> u32
    ensures { result ≡ 2 ^ (n % 32) }
{
    shift::power(n % 32)
}

#[unsafe(no_mangle)]
pub extern "C" fn leaf_above(v: u32, n: u32, low: u32) -> u64
    ensures { result ≡ v * 2 ^ (n % 32) + low }
{
    shift::above(v as u64, n % 32, low as u64)
}

#[unsafe(no_mangle)]
pub extern "C" fn leaf_low_bits(v: u32, n: u32) -> u32
    ensures { result ≡ v % 2 ^ (n % 32) }
{
    shift::low_bits(v, n % 32)
}

#[unsafe(no_mangle)]
pub extern "C" fn leaf_bit_of(v: u32, k: u32) -> u32
    ensures { result ≡ v / 2 ^ (k % 32) % 2 }
{
    shift::bit_of(v, k % 32)
}

#[unsafe(no_mangle)]
pub extern "C" fn leaf_window(v: u64, k: u32) -> u32
    ensures { result ≡ v / 2 ^ (k % 32) % 2 ^ 32 }
{
    shift::window(v, k % 32)
}

#[unsafe(no_mangle)]
pub extern "C" fn leaf_window_in_byte(v: u64, k: u32) -> u32
    ensures { result ≡ v / 2 ^ (k % 8) % 2 ^ 32 }
{
    shift::window_in_byte(v, k % 8)
}
