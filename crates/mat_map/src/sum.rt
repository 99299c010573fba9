// The photons of a group.
ghost use Rattle.std.specs.Prelude.{◌≡◌, ◌/◌, ◌≤◌, length};
ghost use Rattle.bitstream.specs.Bits.{halves_of};
ghost use Rattle.map_format.specs.Reading.{sum};

use row_pixels::pixel_at;

pub fn photons(group: &[u8]) -> u32
    requires { length group.now / 2 ≤ 16 }
    ensures { result ≡ sum (halves_of group.now) }
{
    let mut total = 0;
    for i in 0..group.len() / 2 {
        total += pixel_at(group, i);
    }
    total
}
