// The line of a row, and the text of a record.
ghost use Rattle.std.specs.Prelude.{◌≡◌, true, ◌∷◌, ◌*◌, ◌≤◌, length};
ghost use Rattle.bitstream.specs.Bits.{halves_of};
ghost use Rattle.text.specs.Put.{Put};
ghost use Rattle.map_text.specs.MapText.{row_text};
ghost use Rattle.sheet_format.specs.Kind.{is_row};
ghost use Rattle.sheet_format.specs.Kinds.{kind_of};
ghost use Rattle.sheet_stream.specs.AcceptedRecord.{row_answered};
ghost use Rattle.sheet_to_text.specs.SheetText.{held_text};

use crate::range::RowRange;
use map_text::spaced::put_spaced;
use sheet_format::kind::is_row;
use sheet_stream::step::SheetStep;
use text::number::put_decimal;
use text::put::put_bytes;

// The text of a record that was accepted, by the step that read it and its content: the line of a row that is asked for. 24616 bytes
// hold any.
pub fn put_record_text(out: &mut [u8], range: RowRange, step: SheetStep, content: &[u8]) -> usize
    requires in_bounds { 24616 ≤ length out.old }
    requires count_bound { is_row (kind_of step.read.kind).holds ≡ true
        → (step.read.count ≤ 4096) × (2 * step.read.count ≤ length content.now) }
    ensures put { Put out.old 0
        (held_text range (kind_of step.read.kind).holds (row_answered step.read content.now)) result out.new }
    ensures most { result ≤ 24616 }
{
    let read = step.read;
    let row = read.row as u64;
    if !is_row(read.kind) {
        return 0;
    }
    if !range.has(row) {
        return 0;
    }
    let n = 2 * read.count as usize;
    put_row_line(out, row, &content[..n])
}

// A row's number and its heights, two little-endian bytes each.
fn put_row_line(out: &mut [u8], row: u64, pixels: &[u8]) -> usize
    requires in_bounds { 24616 ≤ length out.old }
    requires pixels_len_bound { length pixels.now ≤ 8192 }
    ensures put { Put out.old 0 (row_text (row ∷ halves_of pixels.now)) result out.new }
    ensures most { result ≤ 24616 }
{
    let next = put_decimal(out, 0, row);
    let end = put_spaced(out, next, pixels, 0, pixels.len() / 2);
    put_bytes(out, end, b"\n")
}
