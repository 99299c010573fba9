// The header call.
ghost use Rattle.std.specs.Prelude.{◌≡◌, ◌≤◌, ◌<◌, length, ltb};
ghost use Rattle.answer.specs.Outcome.{outcome, unless, refuse_if, ◌or_else◌};
ghost use Rattle.answer.specs.Refusal.{result_number};
ghost use Rattle.fits_format.specs.Header.{header_cards, header_number, no_image, image_of, header_read};
ghost use Rattle.fits_reader.specs.Judged.{is_image, unfit_number, CardsRead, table_written, as_header};

use crate::card::{card_integer, is_true};
use crate::cards::{count_cards, find_end, header_cards, stands};
use crate::plain::plain_bytes;
use answer::refusal::Refusal;
use fits_format::{BLOCK_BYTES, ImageHeader, MAX_AXIS};
use sheet_format::SheetState;
use sheet_writer::write_record;

// Reads the header of a FITS file, and writes the plain table's record to the front of `out`. `fits` is the file's bytes
// from its first on; after END's card none is looked at, and there need be none. Refused 17, 11, 5, with the memory as it
// was.
pub fn fits_header(fits: &[u8], out: &mut [u8]) -> ImageHeader
    ensures { outcome result out.new ≡ header_read fits.now out.old }
{
    match read_header(fits, out) {
        Ok(image) => ImageHeader {
            number: 0,
            width: image.width,
            rows: image.rows,
            start: image.start,
            count: 2078,
        },
        Err(refusal) => ImageHeader {
            number: refusal.number(),
            width: 0,
            rows: 0,
            start: 0,
            count: 0,
        },
    }
}

// What a header that is accepted says: the pixels of a row, the rows, and the byte where the image starts.
#[derive(Clone, Copy)]
pub struct Image {
    pub width: u32,
    pub rows: u32,
    pub start: u32,
}

fn read_header(fits: &[u8], out: &mut [u8]) -> Result<Image, Refusal>
    ensures { outcome (as_header result) out.new ≡ header_read fits.now out.old }
{
    let image = judge(fits)?;
    write_table_record(out)?;
    Ok(image)
}

// What the header alone is answered: the call's answer, but for the refusal for room.
fn judge(fits: &[u8]) -> Result<Image, Refusal>
    ensures { as_header result ≡ unless (header_number fits.now) no_image (image_of fits.now) }
{
    let count = count_cards(fits);
    if count < 5 {
        return Err(Refusal::FitsHeader);
    }
    let cards = header_cards(fits);
    let width = card_integer(&cards[3], b"NAXIS1  ");
    let rows = card_integer(&cards[4], b"NAXIS2  ");
    let end = find_end(fits);
    if end == count {
        return Err(Refusal::FitsHeader);
    }
    check_fit(fits, width, rows, end)?;
    check_axes(width, rows)?;
    // The image starts with the block after END's; a block has 36 cards.
    let start = BLOCK_BYTES * (end / 36 + 1);
    Ok(Image {
        width,
        rows,
        start: start as u32,
    })
}

// 17 for whatever reason. An axis is 0 where its integer is below 1 or lacking.
fn check_fit(fits: &[u8], width: u32, rows: u32, end: usize) -> Result<(), Refusal>
    requires cards_read { CardsRead fits.now width rows end }
    requires end_stands { end < length (header_cards fits.now) }
    ensures { result_number result ≡ unfit_number fits.now }
{
    if width == 0 || rows == 0 {
        return Err(Refusal::FitsHeader);
    }
    let cards = header_cards(fits);
    let before = &cards[..end];
    if stands(before, b"BSCALE  ") || stands(before, b"BZERO   ") {
        return Err(Refusal::FitsHeader);
    }
    if is_image(fits) {
        Ok(())
    } else {
        Err(Refusal::FitsHeader)
    }
}

// Whether the first three cards are SIMPLE T, BITPIX 16 and NAXIS 2.
fn is_image(fits: &[u8]) -> bool
    requires { 5 ≤ length (header_cards fits.now) }
    ensures { result ≡ is_image fits.now }
{
    let cards = header_cards(fits);
    if is_true(&cards[0], b"SIMPLE  ") {
        if card_integer(&cards[1], b"BITPIX  ") == 16 {
            return card_integer(&cards[2], b"NAXIS   ") == 2;
        }
    }
    false
}

// 11 for an axis above the most.
fn check_axes(width: u32, rows: u32) -> Result<(), Refusal>
    ensures { result_number result ≡ refuse_if (ltb 4096 width) 11 or_else refuse_if (ltb 4096 rows) 11 }
{
    if MAX_AXIS < width || MAX_AXIS < rows {
        return Err(Refusal::TooMany);
    }
    Ok(())
}

// Writes the plain table's record to the front of `out`. Where it has no room there nothing is written.
fn write_table_record(out: &mut [u8]) -> Result<(), Refusal>
    ensures { outcome (result_number result) out.new ≡ table_written out.old }
{
    let table = plain_bytes();
    let state = SheetState {
        has_table: 0,
        least_row: 0,
    };
    // A table's record is written under no table: what is lent for one is not looked at.
    let written = write_record(1, 0, &table, &table, state, out);
    if written.number == 0 {
        Ok(())
    } else {
        Err(Refusal::Room)
    }
}
