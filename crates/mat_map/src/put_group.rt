// A group by the first of the four codes that fits.
ghost use Rattle.std.specs.Prelude.{◌≡◌, ◌/◌, ◌^◌, ◌≤◌, ◌<◌, length, get_or};
ghost use Rattle.bitstream.specs.Bits.{halves_of};
ghost use Rattle.map_format.specs.Reading.{sum};
ghost use Rattle.map_format.specs.Writing.{positions, group_bits};
ghost use Rattle.mat_map.specs.Putting.{Room, Puts};

use crate::put_pixel::put_pixels;
use crate::sum::photons;
use bitstream::msb_writer::{MsbWriter, put};
use bitstream::shift::above;
use row_pixels::pixel_at;

// k is the bits of a position.
pub fn put_group(out: &mut [u8], w: MsbWriter, k: u32, group: &[u8]) -> MsbWriter
    requires k_bound { k ≤ 4 }
    requires group_len { length group.now / 2 ≡ 2 ^ k }
    requires room { Room out.old w (group_bits k (halves_of group.now)) }
    ensures { Puts out.old w (group_bits k (halves_of group.now)) out.new result }
{
    let total = photons(group);
    if total == 0 {
        return put(out, w, 1, 1);
    }
    if total == 1 {
        return put_one(out, w, k, group);
    }
    if total == 2 {
        return put_two(out, w, k, group);
    }
    let v = put(out, w, 0, 3);
    put_pixels(out, v, group)
}

// One photon: its code and its position are one field.
fn put_one(out: &mut [u8], w: MsbWriter, k: u32, group: &[u8]) -> MsbWriter
    requires k_bound { k ≤ 4 }
    requires group_len { length group.now / 2 ≡ 2 ^ k }
    requires value { 1 ≡ sum (halves_of group.now) }
    requires room { Room out.old w (group_bits k (halves_of group.now)) }
    ensures { Puts out.old w (group_bits k (halves_of group.now)) out.new result }
{
    let p = position_of(group, 0);
    let v = above(1, k, p);
    put(out, w, v, 2 + k)
}

// Two photons: so are their code and both positions.
fn put_two(out: &mut [u8], w: MsbWriter, k: u32, group: &[u8]) -> MsbWriter
    requires k_bound { k ≤ 4 }
    requires group_len { length group.now / 2 ≡ 2 ^ k }
    requires value { 2 ≡ sum (halves_of group.now) }
    requires room { Room out.old w (group_bits k (halves_of group.now)) }
    ensures { Puts out.old w (group_bits k (halves_of group.now)) out.new result }
{
    let lower = position_of(group, 0);
    let higher = position_of(group, 1);
    let v = above(above(1, k, lower), k, higher);
    put(out, w, v, 3 + 2 * k)
}

// The position of photon m of a group.
fn position_of(group: &[u8], m: u32) -> u64
    requires { m < sum (halves_of group.now) }
    ensures value { result ≡ get_or (positions 0 (halves_of group.now)) m 0 }
    ensures upper_bound { result < length group.now / 2 }
{
    // i      the pixel looked at, x its photons
    // left   the photons from pixel i on that come before photon m
    // No `for`: the photon ends the search, and one over the pixels would go on to an end that is never reached.
    let mut i = 0;
    let mut left = m;
    let mut x = pixel_at(group, 0);
    while x <= left {
        left -= x;
        i += 1;
        x = pixel_at(group, i);
    }
    i as u64
}
