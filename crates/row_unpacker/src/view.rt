// What is seen of a bit stream from a place on.
ghost use Rattle.std.specs.Prelude.{◌≡◌, ◌-◌, ◌*◌, min, drop};
ghost use Rattle.bitstream.specs.Bits.{stream};
ghost use Rattle.row_unpacker.specs.View.{Seen};

use bitstream::field::peek32;

// window   the next 32 bits, the first the lowest; bits past the end are 0
// left     how many bits are left, 64 for more than that
#[derive(Clone, Copy)]
pub struct View {
    pub window: u32,
    pub left: u32,
}

impl View {
    // From bit place `at` of the whole words on.
    pub fn ahead(words: &[u8], at: usize) -> View
        ensures { Seen (drop at (stream words.now)) result }
    {
        let whole = words.len() / 4;
        let window = peek32(&words[..4 * whole], at);
        View {
            window,
            left: bits_left(whole, at),
        }
    }
}

// The bits from place `at` to the end of so many words, 64 for more than that. Counted by words, which never wraps. By tests:
// `saturating_sub` and `min` cost a row a tenth of its time more.
fn bits_left(words: usize, at: usize) -> u32
    ensures { result ≡ min 64 (32 * words - at) }
{
    let passed = at / 32;
    if words <= passed {
        return 0;
    }
    let more = words - passed;
    if 2 < more {
        return 64;
    }
    (32 * more - at % 32) as u32
}
