// A row of the picture, from place 14 of lent memory on: what a PNG has in front of a row's samples goes before it.
ghost use Rattle.std.specs.Prelude.{◌≡◌, List, [], map, ◌+◌, ◌*◌, ◌/◌, ◌≤◌, ◌<◌, length, take, get_or, replicate};
ghost use Rattle.bitstream.specs.Bits.{halves_of};
ghost use Rattle.text.specs.Put.{Put};
ghost use Rattle.sheet_format.specs.Sheet.{StoredRow, present, heights_of};
ghost use Rattle.sheet_picture.specs.Colour.{missing, height_index};
ghost use Rattle.sheet_picture.specs.Grid.{widened, row_samples, count_samples, left_row, right_row, beside_times, picture_row};
ghost use Rattle.sheet_picture.specs.View.{range_of, beside_of, look_of, extent_of, ViewFits, IndicesOf, heights_by};

use crate::View;
use crate::count::put_counts;
use crate::height::ABOVE_RANGE;
use crate::run::put_run;
use crate::size::beside_times;
use row_pixels::pixel_at;

// The index of what is not there, and of where nothing is.
const MISSING: u8 = 182;

const BACKGROUND: u8 = 183;

// The first place of a row's samples.
const START: usize = 14;

// Row y: `there` and `pixels` say what the sheet's row y / times holds. indices is the table of index_table.
pub fn put_picture_row(
    out: &mut [u8],
    view: View,
    y: u32,
    there: bool,
    pixels: &[u8],
    indices: &[u8],
    counts: &[u8],
) -> usize
    requires in_bounds { 65440 ≤ length out.old }
    requires view_fits { ViewFits view counts.now }
    requires indices_of { IndicesOf (range_of view) indices.now }
    ensures put { (ys : List StoredRow) → heights_of (y / view.times) ys ≡ heights_by there (halves_of pixels.now)
        → Put out.old 14 (picture_row (look_of view counts.now) (extent_of view) ys y) result out.new }
    ensures most { result ≤ 14 + 65416 }
{
    let next = put_left(out, view, y, there, pixels, indices);
    put_right(out, next, view, y, counts)
}

// What is left: the sheet, and nothing below it.
fn put_left(out: &mut [u8], view: View, y: u32, there: bool, pixels: &[u8], indices: &[u8]) -> usize
    requires times_in_bounds { 14 + view.width * view.times ≤ length out.old }
    requires times_bound { (view.times ≤ 15) × (view.width ≤ 4096) × (view.height ≤ 65552) }
    requires indices_of { IndicesOf (range_of view) indices.now }
    ensures { Put out.old 14
        (left_row (look_of view []) (extent_of view) (heights_by there (halves_of pixels.now)) y) result out.new }
{
    if y < view.height * view.times {
        if there {
            return put_heights(out, view, pixels, indices);
        }
        return put_run(out, START, MISSING, (view.width * view.times) as usize);
    }
    put_run(out, START, BACKGROUND, (view.width * view.times) as usize)
}

// The heights of a row, and what it lacks.
fn put_heights(out: &mut [u8], view: View, pixels: &[u8], indices: &[u8]) -> usize
    requires times_in_bounds { 14 + view.width * view.times ≤ length out.old }
    requires times_bound { (view.times ≤ 15) × (view.width ≤ 4096) }
    requires indices_of { IndicesOf (range_of view) indices.now }
    ensures { Put out.old 14
        (widened view.times (row_samples (range_of view) view.width (present (halves_of pixels.now))))
        result out.new }
{
    let width = view.width as usize;
    let times = view.times as usize;
    let n = width.min(pixels.len() / 2);
    let next = put_samples(out, view, pixels, n, indices);
    put_run(out, next, MISSING, (width - n) * times)
}

// The first n heights of a row.
fn put_samples(out: &mut [u8], view: View, pixels: &[u8], n: usize, indices: &[u8]) -> usize
    requires times_in_bounds { 14 + n * view.times ≤ length out.old }
    requires n_in_bounds { n ≤ length pixels.now / 2 }
    requires indices_of { IndicesOf (range_of view) indices.now }
    ensures { Put out.old 14
        (widened view.times (map (height_index (range_of view)) (take n (halves_of pixels.now)))) result out.new }
{
    if view.times == 1 {
        return put_each(out, view, pixels, n, indices);
    }
    put_wide(out, view, pixels, n, indices)
}

// Each once.
fn put_each(out: &mut [u8], view: View, pixels: &[u8], n: usize, indices: &[u8]) -> usize
    requires n_in_bounds { 14 + n ≤ length out.old }
    requires n_in_bounds_2 { n ≤ length pixels.now / 2 }
    requires indices_of { IndicesOf (range_of view) indices.now }
    ensures { Put out.old 14 (map (height_index (range_of view)) (take n (halves_of pixels.now)))
        result out.new }
{
    for i in 0..n {
        out[START + i] = sample_at(indices, view, pixels, i);
    }
    START + n
}

// Each so many times.
fn put_wide(out: &mut [u8], view: View, pixels: &[u8], n: usize, indices: &[u8]) -> usize
    requires times_in_bounds { 14 + n * view.times ≤ length out.old }
    requires n_in_bounds { n ≤ length pixels.now / 2 }
    requires indices_of { IndicesOf (range_of view) indices.now }
    ensures { Put out.old 14
        (widened view.times (map (height_index (range_of view)) (take n (halves_of pixels.now)))) result out.new }
{
    let times = view.times as usize;
    let mut next = START;
    for i in 0..n {
        let sample = sample_at(indices, view, pixels, i);
        next = put_run(out, next, sample, times);
    }
    next
}

// The sample of column i.
fn sample_at(indices: &[u8], view: View, pixels: &[u8], i: usize) -> u8
    requires i_in_bounds { i < length pixels.now / 2 }
    requires indices_of { IndicesOf (range_of view) indices.now }
    ensures { result ≡ height_index (range_of view) (get_or (halves_of pixels.now) i 0) }
{
    index_at(indices, view, height_at(pixels, i))
}

// The height in column i, and no other's.
fn height_at(pixels: &[u8], i: usize) -> u32
    requires { i < length pixels.now / 2 }
    ensures { result ≡ get_or (halves_of pixels.now) i 0 }
{
    pixel_at(pixels, i)
}

// The index of a pixel. Those above 4095 are none of a sheet; they are above every range.
fn index_at(indices: &[u8], view: View, h: u32) -> u8
    requires { IndicesOf (range_of view) indices.now }
    ensures { result ≡ height_index (range_of view) h }
{
    if h < 4096 {
        return indices[h as usize];
    }
    ABOVE_RANGE
}

// What is right of it: the map, where there is one, and nothing below that.
fn put_right(out: &mut [u8], at: usize, view: View, y: u32, counts: &[u8]) -> usize
    requires at_in_bounds { at + 3976 ≤ length out.old }
    requires view_fits { ViewFits view counts.now }
    ensures put { Put out.old at
        (right_row (beside_of view.beside counts.now) (beside_times (view.height * view.times)) y) result out.new }
    ensures most { result ≤ at + 3976 }
{
    if view.beside == 0 {
        return at;
    }
    let times = beside_times(view);
    let next = put_run(out, at, BACKGROUND, 8);
    if y < 128 * times {
        return put_map(out, next, view, y / times, times as usize, counts);
    }
    put_run(out, next, BACKGROUND, 128 * times as usize)
}

// Row j of the map, or of one that is refused.
fn put_map(out: &mut [u8], at: usize, view: View, j: u32, times: usize, counts: &[u8]) -> usize
    requires times_in_bounds { at + 128 * times ≤ length out.old }
    requires j_bound { j < 128 }
    requires view_fits { ViewFits view counts.now }
    ensures one { view.beside ≡ 1
        → Put out.old at (widened times (count_samples (halves_of counts.now) j)) result out.new }
    ensures none { (view.beside ≡ 1 → ⊥) → Put out.old at (replicate (128 * times) missing) result out.new }
{
    if view.beside == 1 {
        return put_counts(out, at, view.most, times, counts, j as usize);
    }
    put_run(out, at, MISSING, 128 * times)
}
