// The pixels of a group one by one.
ghost use Rattle.std.specs.Prelude.{◌≡◌, ◌<◌};
ghost use Rattle.bitstream.specs.Bits.{halves_of};
ghost use Rattle.map_format.specs.Writing.{pixel_bits, pixels_bits};
ghost use Rattle.mat_map.specs.Putting.{Room, Puts};

use bitstream::msb_writer::{MsbWriter, put};
use row_pixels::pixel_at;

pub fn put_pixels(out: &mut [u8], w: MsbWriter, group: &[u8]) -> MsbWriter
    requires { Room out.old w (pixels_bits (halves_of group.now)) }
    ensures { Puts out.old w (pixels_bits (halves_of group.now)) out.new result }
{
    // v      holds what w holds, and the first i pixels
    let mut v = w;
    for i in 0..group.len() / 2 {
        v = put_pixel(out, v, pixel_at(group, i));
    }
    v
}

// In the shortest of the three forms. 11, which is no pixel of two bits, begins the second, and 111111, which is none of six, the
// third.
fn put_pixel(out: &mut [u8], w: MsbWriter, x: u32) -> MsbWriter
    requires x_bound { x < 65536 }
    requires room { Room out.old w (pixel_bits x) }
    ensures { Puts out.old w (pixel_bits x) out.new result }
{
    if x < 3 {
        return put(out, w, x as u64, 2);
    }
    if x < 18 {
        return put(out, w, 48 + (x - 3) as u64, 6);
    }
    put(out, w, 63 * 65536 + x as u64, 22)
}
