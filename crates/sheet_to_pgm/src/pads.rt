// What is written where a row lacks heights.
ghost use Rattle.std.specs.Prelude.{◌≡◌, ◌++◌, ◌+◌, ◌-◌, ◌*◌, ◌/◌, ◌≤◌, length, replicate};
ghost use Rattle.bitstream.specs.Bits.{halves_of};
ghost use Rattle.text.specs.Put.{Put};
ghost use Rattle.pgm_format.specs.Samples.{samples_of};

use pgm_reader::put::{put_sample, put_samples};

// The samples of a line of `width` heights: those of a row, which are at most as many, and then `height`.
pub fn put_line(out: &mut [u8], height: u16, width: usize, pixels: &[u8]) -> usize
    requires in_bounds { 8192 ≤ length out.old }
    requires width_bound { width ≤ 4096 }
    requires pixels_len_bound { length pixels.now / 2 ≤ width }
    requires pixels_len_bound_2 { length pixels.now ≤ 8192 }
    ensures put { Put out.old 0
        (samples_of (halves_of pixels.now ++ replicate (width - length pixels.now / 2) height)) result out.new }
    ensures most { result ≤ 8192 }
{
    let next = put_samples(out, 0, pixels);
    put_pads(out, next, height, width - pixels.len() / 2)
}

fn put_pads(out: &mut [u8], at: usize, height: u16, n: usize) -> usize
    requires n_in_bounds { at + 2 * n ≤ length out.old }
    ensures put { Put out.old at (samples_of (replicate n height)) result out.new }
    ensures most { result ≡ at + 2 * n }
{
    for i in 0..n {
        put_sample(out, at + 2 * i, u32::from(height));
    }
    at + 2 * n
}
