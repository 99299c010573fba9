// Kind 2: a row, packed under the sheet's table.
ghost use Rattle.std.specs.Prelude.{◌≡◌};
ghost use Rattle.answer.specs.Outcome.{outcome};
ghost use Rattle.row_packer.specs.Known.{Known};
ghost use Rattle.sheet_format.specs.Context.{context_of};
ghost use Rattle.sheet_format.specs.Writing.{record_written};
ghost use Rattle.sheet_writer.specs.Done.{record_answer};

use crate::done::{NotWritten, Written, count_of, record_answer};
use crate::fields::{ROW_FIELD_BYTES, put_row_fields};
use answer::refusal::Refusal;
use row_packer::pack::pack_known;
use sheet_format::kind::RecordKind;
use sheet_format::{RecordWritten, SheetState};

// The table may be known to be accepted, with a longest item of `most` bits: it is then not checked. With 0 nothing is known.
pub fn write_packed(
    row: u32,
    content: &[u8],
    table: &[u8],
    most: u32,
    state: SheetState,
    out: &mut [u8],
) -> RecordWritten
    requires { Known most table.now }
    ensures { outcome result out.new ≡ record_written 2 (record { row = row })
        (context_of table.now state) content.now out.old }
{
    record_answer(put_packed(row, content, table, most, state, out))
}

pub fn put_packed(
    row: u32,
    content: &[u8],
    table: &[u8],
    most: u32,
    state: SheetState,
    out: &mut [u8],
) -> Result<Written, NotWritten>
    requires { Known most table.now }
    ensures { outcome (record_answer result) out.new ≡ record_written 2 (record { row = row })
        (context_of table.now state) content.now out.old }
{
    state.row_place(row)?;
    // The words are packed straight to their place behind the fields. Memory that is too small for these lends its empty
    // end: packing then gives the numbers that come before 5, and writes nothing.
    let start = ROW_FIELD_BYTES.min(out.len());
    let bits = count_of(pack_known(table, most, content, &mut out[start..]))?;
    if start < ROW_FIELD_BYTES {
        return Err(Refusal::Room.into());
    }
    let pixels = content.len() / 2;
    let words = bits.div_ceil(32) as usize;
    let record_bytes = ROW_FIELD_BYTES + 4 * words;
    put_row_fields(
        RecordKind::PackedRow,
        row,
        pixels as u32,
        record_bytes as u32,
        out,
    );
    Ok(Written {
        count: record_bytes as u32,
        state: state.after_row(row),
    })
}
