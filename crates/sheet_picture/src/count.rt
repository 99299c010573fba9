// The counts of a map in green.
ghost use Rattle.std.specs.Prelude.{◌≡◌, ◌+◌, ◌*◌, ◌≤◌, ◌<◌, length, get_or};
ghost use Rattle.bitstream.specs.Bits.{halves_of};
ghost use Rattle.text.specs.Put.{Put};
ghost use Rattle.sheet_picture.specs.Colour.{count_index};
ghost use Rattle.sheet_picture.specs.Grid.{most_of, count_samples, widened};

use crate::run::put_run;
use row_pixels::pixel_at;

// The largest count, at least 1.
pub fn most_of(counts: &[u8]) -> u32
    ensures { result ≡ most_of (halves_of counts.now) }
{
    let mut most: u32 = 1;
    for i in 0..counts.len() / 2 {
        most = most.max(pixel_at(counts, i));
    }
    most
}

fn count_index(most: u32, c: u32) -> u8
    requires { (1 ≤ most) × (c ≤ most) × (most < 65536) }
    ensures { result ≡ count_index most c }
{
    (184 + (c * 71 + (most - 1)) / most) as u8
}

// The count at row j, column i.
fn count_at(counts: &[u8], j: usize, i: usize) -> u32
    requires counts_len { length counts.now ≡ 32768 }
    requires j_bound { (j < 128) × (i < 128) }
    ensures { result ≡ get_or (halves_of counts.now) (128 * j + i) 0 }
{
    pixel_at(counts, 128 * j + i)
}

// Row j of the map, each count so many times.
pub fn put_counts(
    out: &mut [u8],
    at: usize,
    most: u32,
    times: usize,
    counts: &[u8],
    j: usize,
) -> usize
    requires times_in_bounds { at + 128 * times ≤ length out.old }
    requires j_bound { j < 128 }
    requires counts_len { length counts.now ≡ 32768 }
    requires most_value { most ≡ most_of (halves_of counts.now) }
    ensures { Put out.old at (widened times (count_samples (halves_of counts.now) j)) result out.new }
{
    let mut next = at;
    for i in 0..128 {
        let sample = count_index(most, count_at(counts, j, i));
        next = put_run(out, next, sample, times);
    }
    next
}
