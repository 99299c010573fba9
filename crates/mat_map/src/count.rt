// The counts of a map, two little-endian bytes each.
ghost use Rattle.std.specs.Prelude.{◌≡◌, ◌++◌, ◌+◌, ◌/◌, ◌≤◌, ◌<◌, length, drop, get_or, set};
ghost use Rattle.bitstream.specs.Bits.{halves_of};
ghost use Rattle.row_format.specs.Row.{pixel_bytes};

use bitstream::copy::copy;
use bitstream::number::put_u16;
use map_format::COUNT_BYTES;
use row_pixels::pixel_at;

pub fn put_count(counts: &mut [u8], i: usize, v: u32)
    requires i_in_bounds { i < length counts.old / 2 }
    requires v_bound { v < 65536 }
    ensures { halves_of counts.new ≡ set (halves_of counts.old) i v }
{
    put_u16(counts, 2 * i, v);
}

// One photon more.
pub fn add_photon(counts: &mut [u8], i: usize)
    requires i_in_bounds { i < length counts.old / 2 }
    requires i_bound { get_or (halves_of counts.old) i 0 + 1 < 65536 }
    ensures { halves_of counts.new ≡ set (halves_of counts.old) i
        (get_or (halves_of counts.old) i 0 + 1) }
{
    let v = pixel_at(counts, i);
    put_count(counts, i, v + 1);
}

// All of a map's counts to the front of lent memory.
pub fn copy_counts(own: &[u8], counts: &mut [u8])
    requires own_len { length own.now ≡ 32768 }
    requires in_bounds { 32768 ≤ length counts.old }
    ensures { counts.new ≡ pixel_bytes (halves_of own.now) ++ drop 32768 counts.old }
{
    copy(own, COUNT_BYTES, counts);
}
