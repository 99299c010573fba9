// The line of an accepted record, and the last line.
ghost use Rattle.std.specs.Prelude.{◌≡◌, ◌≤◌, length};
ghost use Rattle.bitstream.specs.Bits.{words_of};
ghost use Rattle.row_format.specs.Table.{table_number};
ghost use Rattle.text.specs.Put.{Put};
ghost use Rattle.sheet_listing.specs.Line.{table_text, answer_line, last_line};

use code_table::check::check;
use code_table::header::{low_limit, table_size, word_at};
use row_format::place::has_place;
use sheet_format::RecordRead;
use sheet_format::kind::RecordKind;
use text::line::{
    put_contour_line, put_done_line, put_packed_line, put_plain_line, put_refused_at_line,
    put_refused_bit_line, put_table_line,
};

// The line of a record, by what judging it answered; `body` is its bytes after length and kind.
pub fn put_record_line(out: &mut [u8], read: RecordRead, body: &[u8]) -> usize
    requires in_bounds { 128 ≤ length out.old }
    requires body_value { read.kind ≡ 1 → table_number body.now ≡ 0 }
    ensures put { Put out.old 0 (answer_line read body.now) result out.new }
    ensures most { result ≤ 128 }
{
    match RecordKind::try_from(read.kind) {
        Ok(RecordKind::Table) => put_table(out, body),
        Ok(RecordKind::PackedRow) => {
            put_packed_line(out, 0, read.row, read.count, read.bits, read.words)
        }
        Ok(RecordKind::PlainRow) => put_plain_line(out, 0, read.row, read.count),
        Ok(RecordKind::ContourLine) => put_contour_line(out, 0, read.count),
        Err(_) => 0,
    }
}

// The line of an accepted table; the check answers the bits of its worst pixel.
fn put_table(out: &mut [u8], table: &[u8]) -> usize
    requires in_bounds { 128 ≤ length out.old }
    requires table_value { table_number table.now ≡ 0 }
    ensures put { Put out.old 0 (table_text (words_of table.now)) result out.new }
    ensures most { result ≤ 128 }
{
    let checked = check(table);
    let id = word_at(table, 0);
    let low = low_limit(table);
    let size = table_size(table);
    put_table_line(out, 0, id, low, size, checked.count)
}

pub fn put_last_line(out: &mut [u8], number: u32, bit: u32, index: u64, rows: u64) -> usize
    requires { 128 ≤ length out.old }
    ensures put { Put out.old 0 (last_line number bit index rows) result out.new }
    ensures most { result ≤ 128 }
{
    if number == 0 {
        return put_done_line(out, 0, rows);
    }
    if has_place(number) {
        return put_refused_bit_line(out, 0, number, index, bit);
    }
    put_refused_at_line(out, 0, number, index)
}
