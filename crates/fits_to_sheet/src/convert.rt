// The conversion of one scan.
ghost use Rattle.fits_to_sheet.specs.Scan.{HeaderHeld, FirstRecord};

use crate::header::fill_header;
use crate::rows::{RowFault, convert_rows};
use crate::scan::Scan;
use crate::verdict::end;
use command::input::Input;
use command::program::{Program, Stopped, Unwritten};
use fits_reader::fits_header;

// 2078 bytes are enough for the table's record and 7178 for a row's, whatever its pixels (fits_format, `image_row_number-room`):
// no record is refused for room.
pub fn convert_input(input: &Input) {
    let mut header = [0u8; 28800];
    let mut row = [0u8; 8192];
    let mut out = [0u8; 7178];
    let _ = convert(input, &mut header, &mut row, &mut out);
}

// header   the bytes of the header's blocks
// row      the bytes of a row
// out      the record to be written
// Where reading or writing fails there is no verdict.
fn convert(
    input: &Input,
    header: &mut [u8; 28800],
    row: &mut [u8; 8192],
    out: &mut [u8; 7178],
) -> Result<(), Stopped> {
    let count = fill_header(input, header)?;
    convert_scan(input, &header[..count], row, out)
}

fn convert_scan(
    input: &Input,
    header: &[u8],
    row: &mut [u8; 8192],
    out: &mut [u8; 7178],
) -> Result<(), Stopped>
    requires { HeaderHeld header.now }
{
    let image = fits_header(header, out);
    let number = image.number;
    if number != 0 {
        end(input.program, header, b"", number, 0, 0);
        return Ok(());
    }
    print_table(input.program, header, &out[..image.count as usize])?;
    convert_image(input, Scan { header, image }, row, out)
}

// The rows of a header that is accepted.
fn convert_image(
    input: &Input,
    scan: Scan,
    row: &mut [u8; 8192],
    out: &mut [u8; 7178],
) -> Result<(), Stopped> {
    match convert_rows(input, scan, row, out)? {
        Ok(rows) => end(input.program, scan.header, b"", 0, 0, rows),
        Err(RowFault { number, rows, held }) => {
            end(input.program, scan.header, &row[..held], 0, number, rows);
        }
    }
    Ok(())
}

// Writes the table's record, the first of the sheet.
fn print_table(program: Program, header: &[u8], bytes: &[u8]) -> Result<(), Unwritten>
    requires { FirstRecord header.now bytes.now }
{
    program.print(bytes)
}
