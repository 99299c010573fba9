// The header call.
ghost use Rattle.std.specs.Prelude.{◌≡◌, true, ◌≤◌, length, take, get_or};
ghost use Rattle.answer.specs.Refusal.{result_number};
ghost use Rattle.text.specs.Text.{ascii};
ghost use Rattle.text.specs.Same.{same_bytes};
ghost use Rattle.pgm_format.specs.Header.{is_blank, fields_number, front_read, pgm_header, as_pgm};

use crate::field::field_at;
use crate::gap::is_blank;
use answer::refusal::Refusal;
use pgm_format::{MAX_HEADER_BYTES, MAX_ROWS, MAX_WIDTH, PgmHeader};

// Reads the header of a PGM from the file's bytes, of which the first 65536 are looked at. Refused 17 and 11.
pub fn pgm_header(bytes: &[u8]) -> Result<PgmHeader, Refusal>
    ensures { as_pgm result ≡ pgm_header bytes.now }
{
    let n = MAX_HEADER_BYTES.min(bytes.len());
    read_front(&bytes[..n])
}

fn read_front(bytes: &[u8]) -> Result<PgmHeader, Refusal>
    requires { length bytes.now ≤ 65536 }
    ensures { as_pgm result ≡ front_read bytes.now }
{
    if begins(bytes) {
        return read_fields(bytes);
    }
    Err(Refusal::FitsHeader)
}

fn begins(bytes: &[u8]) -> bool
    ensures { result ≡ same_bytes (take 2 bytes.now) (ascii "P5") }
{
    bytes.starts_with(b"P5")
}

// The three numbers, and the blank behind them.
fn read_fields(bytes: &[u8]) -> Result<PgmHeader, Refusal>
    requires bytes_len_bound { length bytes.now ≤ 65536 }
    requires ascii_value { same_bytes (take 2 bytes.now) (ascii "P5") ≡ true }
    ensures { as_pgm result ≡ front_read bytes.now }
{
    let width = field_at(bytes, 2);
    let rows = field_at(bytes, width.end);
    let largest = field_at(bytes, rows.end);
    let blank = blank_at(bytes, largest.end);
    judge(width.value, rows.value, largest.value, blank)?;
    Ok(PgmHeader {
        width: width.value,
        rows: rows.value,
        start: largest.end as u32 + 1,
    })
}

fn blank_at(bytes: &[u8], at: usize) -> bool
    ensures { result ≡ is_blank (get_or bytes.now at 0) }
{
    if at < bytes.len() {
        is_blank(bytes[at])
    } else {
        false
    }
}

// What is no header of such a picture first, then more than a sheet holds.
#[tactic(auto, unfolding(pgm_format::specs::Header::fields_number))]
fn judge(width: u32, rows: u32, largest: u32, blank: bool) -> Result<(), Refusal>
    ensures { result_number result ≡ fields_number width rows largest blank }
{
    if width == 0 || rows == 0 || largest != 4095 || !blank {
        return Err(Refusal::FitsHeader);
    }
    if MAX_WIDTH < width || MAX_ROWS < rows {
        return Err(Refusal::TooMany);
    }
    Ok(())
}
