// The row call.
ghost use Rattle.std.specs.Prelude.{◌≡◌, length};
ghost use Rattle.answer.specs.Outcome.{outcome};
ghost use Rattle.answer.specs.Refusal.{result_number};
ghost use Rattle.fits_format.specs.Image.{before_pixels, image_row};

use crate::pixels::copy_pixels;
use crate::plain::plain_bytes;
use answer::Answer;
use answer::refusal::Refusal;
use sheet_format::SheetState;
use sheet_writer::write_packed;

// Writes the record of one row of an image to the front of `out`: `image` is the image's bytes from this row on, of which the
// row's are looked at. Refused 17, 11, 18, 4, 5, with the memory as it was.
pub fn fits_row(width: u64, row: u64, image: &[u8], out: &mut [u8]) -> Answer
    ensures { outcome result out.new ≡ image_row width row image.now out.old }
{
    if let Err(refusal) = judge(width, row, image.len()) {
        return Err(refusal).into();
    }
    write_row(width as usize, row as u32, image, out)
}

// The refusals before a pixel is looked at: 17, 11 and 18.
#[tactic(auto, unfolding(fits_format::specs::Image::before_pixels))]
fn judge(width: u64, row: u64, bytes: usize) -> Result<(), Refusal>
    ensures { result_number result ≡ before_pixels width row bytes }
{
    if width == 0 {
        return Err(Refusal::FitsHeader);
    }
    if 4096 < width || 4095 < row {
        return Err(Refusal::TooMany);
    }
    if bytes / 2 < width as usize {
        return Err(Refusal::ImageEnd);
    }
    Ok(())
}

// The same of a row that is there. The record writer answers a number, as C has it, and so this does.
fn write_row(width: usize, row: u32, image: &[u8], out: &mut [u8]) -> Answer
    requires { before_pixels width row (length image.now) ≡ 0 }
    ensures { outcome result out.new ≡ image_row width row image.now out.old }
{
    let mut pixels = [0u8; 8192];
    copy_pixels(image, width, &mut pixels);
    let table = plain_bytes();
    let state = SheetState {
        has_table: 1,
        least_row: row,
    };
    // The plain table is accepted and its longest item has 14 bits, so no row needs a check of it.
    let written = write_packed(row, &pixels[..2 * width], &table, 14, state, out);
    Answer {
        number: written.number,
        count: written.count,
    }
}
