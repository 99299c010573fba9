// The colour index of a height. A height is looked up in a table of all indices: a division each would cost more than the rest.
ghost use Rattle.std.specs.Prelude.{◌≡◌, ◌≤◌, length};
ghost use Rattle.sheet_picture.specs.Colour.{height_index};
ghost use Rattle.sheet_picture.specs.View.{IndicesOf};

// The indices that are no greys.
const BELOW_RANGE: u8 = 178;

pub const ABOVE_RANGE: u8 = 179;

const BAD_BIAS_SPOT: u8 = 180;

const BAD_PIXEL_SPOT: u8 = 181;

pub fn height_index(low: u32, high: u32, h: u32) -> u8
    requires { high ≤ 4093 }
    ensures { result ≡ height_index record { low = low; high = high } h }
{
    if h == 4095 {
        return BAD_PIXEL_SPOT;
    }
    if h == 4094 {
        return BAD_BIAS_SPOT;
    }
    if h < low {
        return BELOW_RANGE;
    }
    if high < h {
        return ABOVE_RANGE;
    }
    ((h - low) * 178 / (high - low + 1)) as u8
}

// The indices of all heights, 0 to 4095.
pub fn index_table(low: u32, high: u32) -> [u8; 4096]
    requires { (low ≤ high) × (high ≤ 4093) }
    ensures { IndicesOf record { low = low; high = high } result }
{
    let mut indices = [0u8; 4096];
    put_indices(&mut indices, low, high);
    indices
}

fn put_indices(indices: &mut [u8], low: u32, high: u32)
    requires indices_len { length indices.old ≡ 4096 }
    requires low_le_high { (low ≤ high) × (high ≤ 4093) }
    ensures { IndicesOf record { low = low; high = high } indices.new }
{
    for (h, index) in indices.iter_mut().enumerate() {
        *index = height_index(low, high, h as u32);
    }
}
