// A group of pixels.
ghost use Rattle.std.specs.Prelude.{◌≡◌, ◌+◌, ◌*◌, ◌/◌, ◌%◌, ◌^◌, ◌<◌, drop};
ghost use Rattle.bitstream.specs.Bits.{halves_of};
ghost use Rattle.bitstream.specs.Msb.{msb_bits_of};
ghost use Rattle.map_format.specs.Reading.{one, two, direct, read_body, read_group};
ghost use Rattle.mat_map.specs.Step.{as_stepped, GroupReady, Stored};

use crate::code::code;
use crate::count::add_photon;
use crate::field::{Step, field};
use crate::pixels::pixels;
use answer::refusal::Refusal;
use bitstream::msb_field::{lacks_bits, msb_field};
use bitstream::shift::{low_bits, power, window};

// The group at bit place `at`, to the 2 ^ k counts from `place` on, which are 0; the value is its photons. Where the bits of a code
// and two positions are there they are looked at once.
pub fn group(k: u32, s: &[u8], at: usize, own: &mut [u8], place: usize) -> Result<Step, Refusal>
    requires { GroupReady k (at + 3) place (halves_of own.old) }
    ensures { Stored (msb_bits_of s.now) (at + 3 + 22 * 2 ^ k) (read_group k (drop at (msb_bits_of s.now)))
        place (2 ^ k) (halves_of own.old) (halves_of own.new) (as_stepped result) }
{
    if lacks_bits(s, at, 11) {
        return by_code(k, s, at, own, place);
    }
    let ahead = msb_field(s, at, 11);
    if ahead / 1024 % 2 == 1 {
        return Ok(Step {
            value: 0,
            next: at + 1,
        });
    }
    if ahead / 512 % 2 == 1 {
        add_photon(own, place + position(ahead, 9 - k, k) as usize);
        return Ok(Step {
            value: 1,
            next: at + 2 + k as usize,
        });
    }
    if ahead / 256 % 2 == 1 {
        add_photon(own, place + position(ahead, 8 - k, k) as usize);
        add_photon(own, place + position(ahead, 8 - k - k, k) as usize);
        return Ok(Step {
            value: 2,
            next: at + 3 + k as usize + k as usize,
        });
    }
    each_pixel(k, s, at + 3, own, place)
}

// The k bits above so many.
fn position(bits: u32, below: u32, k: u32) -> u32
    requires below_bound { below < 32 }
    requires k_bound { k < 32 }
    ensures { result ≡ bits / 2 ^ below % 2 ^ k }
{
    low_bits(window(bits as u64, below), k)
}

// The same field after field.
fn by_code(k: u32, s: &[u8], at: usize, own: &mut [u8], place: usize) -> Result<Step, Refusal>
    requires { GroupReady k (at + 3) place (halves_of own.old) }
    ensures { Stored (msb_bits_of s.now) (at + 3 + 22 * 2 ^ k) (read_group k (drop at (msb_bits_of s.now)))
        place (2 ^ k) (halves_of own.old) (halves_of own.new) (as_stepped result) }
{
    let c = code(s, at)?;
    if c.value == 0 {
        return Ok(c);
    }
    if c.value == 1 {
        return one_photon(k, s, c.next, own, place);
    }
    if c.value == 2 {
        return two_photons(k, s, c.next, own, place);
    }
    each_pixel(k, s, c.next, own, place)
}

// After 01.
fn one_photon(k: u32, s: &[u8], at: usize, own: &mut [u8], place: usize) -> Result<Step, Refusal>
    requires { GroupReady k at place (halves_of own.old) }
    ensures { Stored (msb_bits_of s.now) (at + 22 * 2 ^ k) (read_body k one (drop at (msb_bits_of s.now)))
        place (2 ^ k) (halves_of own.old) (halves_of own.new) (as_stepped result) }
{
    let p = field(s, at, k)?;
    add_photon(own, place + p.value as usize);
    Ok(Step {
        value: 1,
        next: p.next,
    })
}

// After 001: in whatever order, and also twice the same.
fn two_photons(k: u32, s: &[u8], at: usize, own: &mut [u8], place: usize) -> Result<Step, Refusal>
    requires { GroupReady k at place (halves_of own.old) }
    ensures { Stored (msb_bits_of s.now) (at + 22 * 2 ^ k) (read_body k two (drop at (msb_bits_of s.now)))
        place (2 ^ k) (halves_of own.old) (halves_of own.new) (as_stepped result) }
{
    let p = field(s, at, k)?;
    let q = field(s, p.next, k)?;
    add_photon(own, place + p.value as usize);
    add_photon(own, place + q.value as usize);
    Ok(Step {
        value: 2,
        next: q.next,
    })
}

// After 000: at least three photons.
fn each_pixel(k: u32, s: &[u8], at: usize, own: &mut [u8], place: usize) -> Result<Step, Refusal>
    requires { GroupReady k at place (halves_of own.old) }
    ensures { Stored (msb_bits_of s.now) (at + 22 * 2 ^ k) (read_body k direct (drop at (msb_bits_of s.now)))
        place (2 ^ k) (halves_of own.old) (halves_of own.new) (as_stepped result) }
{
    let all = pixels(power(k) as usize, s, at, own, place)?;
    if all.value < 3 {
        return Err(Refusal::MapPixel);
    }
    Ok(all)
}
