// A packed row in a record.
ghost use Rattle.std.specs.Prelude.{◌≡◌, ◌≤◌, length};
ghost use Rattle.sheet_format.specs.Context.{context_of};
ghost use Rattle.sheet_format.specs.Kind.Row.{pixel_count};
ghost use Rattle.sheet_format.specs.Kind.PackedRow.{packed_kind};
ghost use Rattle.sheet_reader.specs.Answers.{read_answer};
ghost use Rattle.sheet_reader.specs.Leaves.{ContentLeaves};
ghost use Rattle.sheet_reader.specs.Packed.{RowRead};

use crate::answers::{Refused, accepted, bits_of};
use crate::keep::keep;
use crate::row::{RowFields, row_fields};
use answer::refusal::Refusal;
use row_unpacker::unpack::unpack;
use sheet_format::kind::RecordKind;
use sheet_format::{RecordRead, SheetState};

// The bytes of 4096 pixels.
const MOST_ROW_BYTES: usize = 8192;

// A row's pixels are unpacked before a leftover word is known, and a refusal leaves `content` as it was: so they go to
// memory of this call first.
pub fn read_packed(
    table: &[u8],
    body: &[u8],
    whole: u32,
    state: SheetState,
    room: usize,
    content: &mut [u8],
) -> Result<RecordRead, Refused>
    ensures { ContentLeaves packed_kind room 2 whole (context_of table.now state) body.now
        content.old (read_answer result) content.new }
{
    // a missing field is 14 too, so that the order of the two does not matter
    if body.len() % 4 != 0 {
        return Err(Refusal::Record.into());
    }
    let RowFields { row, count } = row_fields(body, state)?;
    let mut pixels = [0u8; MOST_ROW_BYTES];
    let bits = unpack_row(table, body, count, room, &mut pixels)?;
    keep(&pixels, 2 * count as usize, room, content);
    Ok(accepted(
        RecordKind::PackedRow,
        row,
        count,
        bits,
        whole,
        state.after_row(row),
    ))
}

// The row's bits, and its pixels to the front of `pixels`; 14 where a word is left after the last used one. Unpacking gives
// 5 in its turn, since it is lent no more than the room.
fn unpack_row(
    table: &[u8],
    body: &[u8],
    count: u32,
    room: usize,
    pixels: &mut [u8],
) -> Result<u32, Refused>
    requires in_bounds { 4 ≤ length body.now }
    requires count_value { count ≡ pixel_count body.now }
    requires pixels_len { length pixels.old ≡ 8192 }
    ensures { RowRead room table.now body.now result pixels.new }
{
    let words = &body[4..];
    let lent = room.min(MOST_ROW_BYTES);
    let bits = bits_of(unpack(table, words, count as u64, &mut pixels[..lent]))?;
    let used = bits.div_ceil(32) as usize;
    if 4 * used < words.len() {
        return Err(Refusal::Record.into());
    }
    Ok(bits)
}
