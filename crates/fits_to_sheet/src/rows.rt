// The rows of an image, one after another.
ghost use Rattle.std.specs.Prelude.{IfOk};
ghost use Rattle.fits_to_sheet.specs.Scan.{RowMade, NextRecord, RowsEnded};

use crate::scan::Scan;
use command::input::Input;
use command::program::{Program, Stopped, Unwritten};
use fits_reader::fits_row;

// A row that is refused.
// number   the number that refuses it
// rows     the rows written before it
// held     the bytes that are held of it
#[derive(Clone, Copy)]
pub struct RowFault {
    pub number: u32,
    pub rows: u64,
    pub held: usize,
}

// row      the bytes of row r
// out      its record
// r        the rows written so far, and so the number of the next
// The rows written, where none is refused. No contract can say that reading moves the input's next bytes, fewer than asked only at its
// end, and that writing moves the record's bytes: only that is left to tests. With it what is written is what the scan's conversion
// has. The rows before row r stand in no memory any more: `NextRecord` and `Ended` say that there are such.
pub fn convert_rows(
    input: &Input,
    scan: Scan,
    row: &mut [u8; 8192],
    out: &mut [u8; 7178],
) -> Result<Result<u64, RowFault>, Stopped>
    ensures { IfOk result (RowsEnded scan.entry.header.now row.new) }
{
    // pgm_to_sheet's loop is this one, over other steps: a trait for the steps of both is longer than the two loops
    let rows = scan.image.rows as u64;
    let span = scan.row_span();
    for r in 0..rows {
        let held = input.fill(&mut row[..span])?;
        match put_row(scan, r, &row[..held], out) {
            Ok(count) => print_row(input.program, scan, &row[..held], r, &out[..count])?,
            Err(number) => {
                return Ok(Err(RowFault {
                    number,
                    rows: r,
                    held,
                }));
            }
        }
    }
    Ok(Ok(rows))
}

// The record of row r, whose bytes are held, at the front of `out`, and its length; or the number that refuses the row.
fn put_row(scan: Scan, r: u64, held: &[u8], out: &mut [u8; 7178]) -> Result<usize, u32>
    ensures { RowMade scan.entry.image.width r held.now result out.new }
{
    let answer = fits_row(scan.image.width as u64, r, held, out);
    if answer.number == 0 {
        return Ok(answer.count as usize);
    }
    Err(answer.number)
}

// Writes the record of row r; nothing else of it goes out. `scan`, `held` and `r` say what the record must be; nothing else is done
// with them.
fn print_row(
    program: Program,
    scan: Scan,
    held: &[u8],
    r: u64,
    bytes: &[u8],
) -> Result<(), Unwritten>
    requires { NextRecord scan.header.now held.now r bytes.now }
{
    program.print(bytes)
}
