// A picture's bytes: the header, and a row's samples.
ghost use Rattle.std.specs.Prelude.{[], ◌∷◌, ◌+◌, ◌/◌, ◌%◌, ◌≤◌, ◌<◌, length};
ghost use Rattle.bitstream.specs.Bits.{halves_of};
ghost use Rattle.text.specs.Put.{Put};
ghost use Rattle.pgm_format.specs.Header.{pgm_front};
ghost use Rattle.pgm_format.specs.Samples.{samples_of};

use row_pixels::pixel_at;
use text::number::put_fields;
use text::put::put_bytes;

pub fn put_pgm_header(out: &mut [u8], width: u32, rows: u32) -> usize
    requires { 64 ≤ length out.old }
    ensures put { Put out.old 0 (pgm_front width rows) result out.new }
    ensures most { result ≤ 64 }
{
    let next = put_fields(out, 0, b"P5\n", width as u64, b" ", rows as u64);
    put_bytes(out, next, b"\n4095\n")
}

// The samples of some heights, which are given as pixels of two little-endian bytes.
pub fn put_samples(out: &mut [u8], at: usize, pixels: &[u8]) -> usize
    requires { at + length pixels.now ≤ length out.old }
    ensures put { Put out.old at (samples_of (halves_of pixels.now)) result out.new }
    ensures most { result ≤ at + length pixels.now }
{
    let n = pixels.len() / 2;
    for i in 0..n {
        put_sample(out, at + 2 * i, pixel_at(pixels, i));
    }
    at + 2 * n
}

// The higher byte first.
pub fn put_sample(out: &mut [u8], at: usize, height: u32)
    requires at_in_bounds { at + 2 ≤ length out.old }
    requires height_bound { height < 65536 }
    ensures { Put out.old at (height / 256 ∷ height % 256 ∷ []) (at + 2) out.new }
{
    out[at..at + 2].copy_from_slice(&(height as u16).to_be_bytes());
}
