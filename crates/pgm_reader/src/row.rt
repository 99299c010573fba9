// The row call.
ghost use Rattle.std.specs.Prelude.{◌≡◌, length};
ghost use Rattle.answer.specs.Outcome.{outcome};
ghost use Rattle.answer.specs.Refusal.{result_number};
ghost use Rattle.row_packer.specs.Known.{Known};
ghost use Rattle.sheet_format.specs.Writing.{not_written};
ghost use Rattle.pgm_format.specs.Conversion.{before_samples, pgm_row};

use answer::refusal::Refusal;
use fits_reader::copy_pixels;
use pgm_format::MAX_WIDTH;
use sheet_format::{RecordWritten, SheetState};
use sheet_writer::write_packed;

// Writes the record of one row of a picture to the front of `out`: `samples` is the picture's bytes from this row on, of which the
// row's are looked at. `table` and `state` are as the record writer takes them, and `most` is what is known of the table: 0 for
// nothing. Refused 17, 11, 18, and then by the record writer's numbers, as C has them, and so is the answer; the memory is as it was.
pub fn pgm_row(
    width: u32,
    row: u32,
    table: &[u8],
    most: u32,
    state: SheetState,
    samples: &[u8],
    out: &mut [u8],
) -> RecordWritten
    requires { Known most table.now }
    ensures { outcome result out.new ≡ pgm_row width row table.now state samples.now out.old }
{
    if let Err(refusal) = judge(width, samples.len()) {
        return refused(refusal.number());
    }
    write_row(width as usize, row, table, most, state, samples, out)
}

// The refusals before a sample is looked at.
#[tactic(auto, unfolding(pgm_format::specs::Conversion::before_samples))]
fn judge(width: u32, bytes: usize) -> Result<(), Refusal>
    ensures { result_number result ≡ before_samples width bytes }
{
    if width < 1 {
        return Err(Refusal::FitsHeader);
    }
    if MAX_WIDTH < width {
        return Err(Refusal::TooMany);
    }
    if bytes < 2 * width as usize {
        return Err(Refusal::ImageEnd);
    }
    Ok(())
}

fn refused(number: u32) -> RecordWritten
    ensures { result ≡ not_written number }
{
    RecordWritten {
        number,
        count: 0,
        state: SheetState {
            has_table: 0,
            least_row: 0,
        },
    }
}

// The same of a row that is there.
fn write_row(
    width: usize,
    row: u32,
    table: &[u8],
    most: u32,
    state: SheetState,
    samples: &[u8],
    out: &mut [u8],
) -> RecordWritten
    requires known { Known most table.now }
    requires samples_value { before_samples width (length samples.now) ≡ 0 }
    ensures { outcome result out.new ≡ pgm_row width row table.now state samples.now out.old }
{
    let mut pixels = [0u8; 8192];
    copy_pixels(samples, width, &mut pixels);
    write_packed(row, &pixels[..2 * width], table, most, state, out)
}
