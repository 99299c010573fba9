// The pixels of an image's row.
ghost use Rattle.std.specs.Prelude.{◌≡◌, ◌+◌, ◌*◌, ◌≤◌, ◌<◌, length, take};
ghost use Rattle.row_format.specs.Row.{pixel_bytes};
ghost use Rattle.fits_format.specs.Image.{number_at, big_endian};

use bitstream::byte::byte_at;
use bitstream::number::put_u16;

// Copies `width` pixels to the front of `pixels`: there the lower byte of each comes first, in the image the higher one. No bit
// is lost: a pixel below 0 comes to be one above 32767, and packing refuses it with the others above 4095.
pub fn copy_pixels(image: &[u8], width: usize, pixels: &mut [u8])
    requires width_bound { width ≤ 4096 }
    requires width_in_bounds { 2 * width ≤ length image.now }
    requires width_in_bounds_2 { 2 * width ≤ length pixels.old }
    ensures { take (2 * width) pixels.new ≡ pixel_bytes (big_endian width image.now) }
{
    for i in 0..width {
        put_u16(pixels, 2 * i, image_pixel(image, i));
    }
}

// The two bytes of pixel i as a number of 16 bits.
fn image_pixel(image: &[u8], i: usize) -> u32
    requires i_bound { i < 4096 }
    requires i_in_bounds { 2 * i + 1 < length image.now }
    ensures { result ≡ number_at (2 * i) image.now }
{
    let high = byte_at(image, 2 * i);
    let low = byte_at(image, 2 * i + 1);
    high * 256 + low
}
