// The verdict: how a conversion into a sheet ended.
ghost use Rattle.std.specs.Prelude.{◌≤◌, length};
ghost use Rattle.text.specs.Put.{Put};
ghost use Rattle.fits_reader.specs.Verdict.{verdict_text, refused_row_line};

use text::line::{put_done_line, put_refused_line};
use text::number::put_fields;
use text::put::put_bytes;

// The line by the header's number, the number of the row that is refused, and the rows written: numbers, 0 for none, as the calls for C
// answer them.
pub fn put_verdict(out: &mut [u8], number: u32, fault: u32, rows: u64) -> usize
    requires { 128 ≤ length out.old }
    ensures put { Put out.old 0 (verdict_text number fault rows) result out.new }
    ensures most { result ≤ 128 }
{
    if number != 0 {
        return put_refused_line(out, 0, number);
    }
    if fault != 0 {
        return put_refused_row_line(out, fault, rows);
    }
    put_done_line(out, 0, rows)
}

// `refused N at row K`
fn put_refused_row_line(out: &mut [u8], number: u32, row: u64) -> usize
    requires { 128 ≤ length out.old }
    ensures put { Put out.old 0 (refused_row_line number row) result out.new }
    ensures most { result ≤ 128 }
{
    let next = put_fields(out, 0, b"refused ", number as u64, b" at row ", row);
    put_bytes(out, next, b"\n")
}
