// The pixels of a row, judged.
ghost use Rattle.std.specs.Prelude.{◌≡◌, false, ◌/◌, ◌≤◌, length, ltb, IfOk};
ghost use Rattle.answer.specs.Outcome.{◌or_else◌};
ghost use Rattle.answer.specs.Refusal.{result_number};
ghost use Rattle.bitstream.specs.Bits.{halves_of};
ghost use Rattle.row_format.specs.Lists.{any};
ghost use Rattle.row_format.specs.Row.{too_many, too_high};

use answer::refusal::Refusal;
use row_format::MAX_PIXELS;
use row_pixels::any_above;

// At most 4096 of them, and none above 4095.
#[derive(Clone, Copy)]
pub struct Row<'a> {
    pub pixels: &'a [u8],
    ghost few: { length pixels.now / 2 ≤ 4096 },
    ghost low: { any (ltb 4095) (halves_of pixels.now) ≡ false },
}

impl<'a> Row<'a> {
    pub fn of(pixels: &'a [u8]) -> Result<Row<'a>, Refusal>
        ensures number { result_number result ≡ too_many (length (halves_of pixels.now)) or_else too_high (halves_of pixels.now) }
        ensures pixels { IfOk result (λ row. row.pixels ≡ pixels.entry) }
    {
        if MAX_PIXELS < (pixels.len() / 2) as u64 {
            return Err(Refusal::TooMany);
        }
        if any_above(pixels) {
            return Err(Refusal::Pixel);
        }
        Ok(Row { pixels })
    }
}
