// The rows of a picture, one after another.
ghost use Rattle.std.specs.Prelude.{◌<◌, IfOk};
ghost use Rattle.pgm_to_sheet.specs.Picture.{LineMade, LineAdded, LinesEnded};

use crate::picture::Picture;
use crate::row::fill_row;
use command::input::Input;
use command::program::{Program, Stopped, Unwritten};
use pgm_reader::pgm_row;
use sheet_format::SheetState;

// A row that is refused.
// number   the number that refuses it
// rows     the rows written before it
// held     the bytes that are held of it
#[derive(Clone, Copy)]
pub struct RowFault {
    pub number: u32,
    pub rows: u32,
    pub held: usize,
}

// row      the bytes of row r
// out      its record
// r        the rows written so far, and so the number of the next
// The rows written, where none is refused. No contract can say that reading moves the input's next bytes, fewer than asked only at its
// end, and that writing moves the record's bytes: only that is left to tests. With it what is written is what the picture's conversion
// has. The bytes before row r stand in no memory any more, but for those of the front: `LineAdded` and `PictureEnded` say that there
// are such, the header's and those of r rows.
pub fn convert_rows(
    input: &Input,
    picture: Picture,
    row: &mut [u8; 8192],
    out: &mut [u8; 32784],
) -> Result<Result<u32, RowFault>, Stopped>
    ensures { IfOk result (LinesEnded picture.entry.table.bytes.now picture.entry.front.now row.new) }
{
    // fits_to_sheet's loop is this one, over other steps: a trait for the steps of both is longer than the two loops
    let span = picture.span();
    for r in 0..picture.header.rows {
        let place = picture.row_place(r);
        let held = fill_row(input, picture.front, place, span, row)?;
        match put_row(picture, r, &row[..held], out) {
            Ok(count) => print_row(input.program, picture, &row[..held], r, &out[..count])?,
            Err(number) => {
                return Ok(Err(RowFault {
                    number,
                    rows: r,
                    held,
                }));
            }
        }
    }
    Ok(Ok(picture.header.rows))
}

// The record of row r, whose bytes are held, at the front of `out`, and its length; or the number that refuses the row.
fn put_row(picture: Picture, r: u32, held: &[u8], out: &mut [u8; 32784]) -> Result<usize, u32>
    requires { r < picture.header.rows }
    ensures { LineMade picture.entry.table.bytes.now picture.entry.header.width r held.now result out.new }
{
    let state = SheetState {
        has_table: 1,
        least_row: r,
    };
    let width = picture.header.width;
    let table = picture.table;
    let written = pgm_row(width, r, table.bytes, table.most, state, held, out);
    if written.number == 0 {
        return Ok(written.count as usize);
    }
    Err(written.number)
}

// Writes the record of row r; nothing else of it goes out. `picture`, `held` and `r` say what the record must be; nothing else is done
// with them.
fn print_row(
    program: Program,
    picture: Picture,
    held: &[u8],
    r: u32,
    bytes: &[u8],
) -> Result<(), Unwritten>
    requires { LineAdded picture.table.bytes.now picture.front.now held.now r bytes.now }
{
    program.print(bytes)
}
