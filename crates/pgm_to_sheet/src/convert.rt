// The conversion of one picture.
ghost use Rattle.std.specs.Prelude.{◌≡◌, ◌≤◌, length, take};
ghost use Rattle.fits_format.specs.Heights.{table_bytes};
ghost use Rattle.pgm_to_sheet.specs.Picture.{TableWritten};

use crate::picture::{Picture, Table};
use crate::rest::hint_rest;
use crate::rows::{RowFault, convert_rows};
use crate::verdict::end;
use code_table::check::max_item_bits;
use command::input::Input;
use command::program::{Program, Stopped, Unwritten};
use pgm_reader::pgm_header;
use sheet_format::SheetState;
use sheet_writer::write_record;

// The table is looked at first.
pub fn convert_input(input: &Input, table: &[u8])
    requires { length table.now ≤ 32773 }
{
    match max_item_bits(table) {
        Ok(most) => convert_under(input, Table { bytes: table, most }),
        Err(refusal) => end(input.program, table, b"", b"", refusal.number(), 0, 0),
    }
}

// 13834 bytes are enough for a row's record, whatever its heights, and six more than the table's for its own: no record is refused for
// room (pgm_format, `pgm_row-number`).
fn convert_under(input: &Input, table: Table) {
    let mut front = [0u8; 65536];
    let mut row = [0u8; 8192];
    let mut out = [0u8; 32784];
    let _ = convert(input, table, &mut front, &mut row, &mut out);
}

// front   the first bytes of the file
// row     the bytes of a row
// out     the record to be written
// Where reading or writing fails there is no verdict.
fn convert(
    input: &Input,
    table: Table,
    front: &mut [u8; 65536],
    row: &mut [u8; 8192],
    out: &mut [u8; 32784],
) -> Result<(), Stopped> {
    let n = input.fill(front)?;
    convert_picture(input, table, &front[..n], row, out)
}

fn convert_picture(
    input: &Input,
    table: Table,
    front: &[u8],
    row: &mut [u8; 8192],
    out: &mut [u8; 32784],
) -> Result<(), Stopped> {
    let header = match pgm_header(front) {
        Ok(header) => header,
        Err(refusal) => {
            let number = refusal.number();
            end(input.program, table.bytes, front, b"", number, 0, 0);
            return Ok(());
        }
    };
    let count = put_table(table, out);
    print_table(input.program, table, front, &out[..count])?;
    let picture = Picture {
        table,
        front,
        header,
    };
    convert_lines(input, picture, row, out)
}

// Puts the table's record at the front of `out`.
fn put_table(table: Table, out: &mut [u8; 32784]) -> usize
    ensures bytes { take result out.new ≡ table_bytes table.entry.bytes.now }
    ensures within { result ≤ 32784 }
{
    let state = SheetState {
        has_table: 0,
        least_row: 0,
    };
    // A table's record is written under no table: what is lent for one is not looked at.
    let written = write_record(1, 0, table.bytes, table.bytes, state, out);
    written.count as usize
}

// Writes the table's record, the first of the sheet. `table` and `front` say what it must be; nothing else is done with them.
fn print_table(program: Program, table: Table, front: &[u8], bytes: &[u8]) -> Result<(), Unwritten>
    requires { TableWritten table.bytes.now front.now bytes.now }
{
    program.print(bytes)
}

// The rows of a header that is accepted.
fn convert_lines(
    input: &Input,
    picture: Picture,
    row: &mut [u8; 8192],
    out: &mut [u8; 32784],
) -> Result<(), Stopped> {
    let table = picture.table.bytes;
    match convert_rows(input, picture, row, out)? {
        Ok(rows) => {
            hint_rest(input, picture);
            end(input.program, table, picture.front, b"", 0, 0, rows as u64);
        }
        Err(RowFault { number, rows, held }) => {
            let held = &row[..held];
            end(
                input.program,
                table,
                picture.front,
                held,
                0,
                number,
                rows as u64,
            );
        }
    }
    Ok(())
}
