// The pixels of a row, two little-endian bytes each.
#![tactic(auto)]

ghost use Rattle.std.specs.Prelude.{◌≡◌, ◌/◌, ◌<◌, length, get_or, ltb};
ghost use Rattle.bitstream.specs.Bits.{halves_of};
ghost use Rattle.row_format.specs.Lists.{any};

use bitstream::number::read_u16;
use row_format::MAX_PIXEL;

pub fn pixel_at(pixels: &[u8], i: usize) -> u32
    requires { i < length pixels.now / 2 }
    ensures { result ≡ get_or (halves_of pixels.now) i 0 }
{
    read_u16(pixels, 2 * i)
}

// Whether a pixel is above 4095. It looks at every pixel, not as `any` does: a way out for the rare one would be asked for at each.
pub fn any_above(pixels: &[u8]) -> bool
    ensures { result ≡ any (ltb 4095) (halves_of pixels.now) }
{
    let mut above = false;
    for i in 0..pixels.len() / 2 {
        if MAX_PIXEL < pixel_at(pixels, i) {
            above = true;
        }
    }
    above
}
