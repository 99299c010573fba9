// The call: one row of a height model.
ghost use Rattle.std.specs.Prelude.{◌≡◌, ◌/◌};
ghost use Rattle.answer.specs.Outcome.{◌or_else◌, lent, room_number};
ghost use Rattle.answer.specs.Refusal.{result_number, as_long_answer};
ghost use Rattle.delta_format.specs.Calls.{delta_outcome, delta_row};

use crate::element::Elements;
use crate::walk::walk;
use answer::LongAnswer;
use answer::refusal::Refusal;
use delta_format::RowPlaces;

// 5: four bytes a value and one a mark.
fn judge_room(n: u64, row_len: usize, marks_len: usize) -> Result<(), Refusal>
    ensures { result_number result ≡ room_number (lent (row_len / 4)) n or_else room_number (lent marks_len) n }
{
    if ((row_len / 4) as u64) < n {
        return Err(Refusal::Room);
    }
    if (marks_len as u64) < n {
        return Err(Refusal::Room);
    }
    Ok(())
}

// Reads the row of n elements that begins at the places `first`: its values into row, four bytes each, and its marks into marks. It is
// judged before anything is written, so that a refusal leaves both as they were and a row may have any length.
pub fn read_row(
    n: u64,
    data_bits: u32,
    data: &[u8],
    value_bits: u32,
    value: &[u8],
    repeat: &[u8],
    first: RowPlaces,
    row: &mut [u8],
    marks: &mut [u8],
) -> LongAnswer
    ensures { delta_outcome result row.new marks.new ≡ delta_row n (record {
      data_bits = data_bits;
      data_bytes = «data».now;
      value_bits = value_bits;
      value_bytes = value.now;
      repeat_bytes = repeat.now;
    }) first
        row.old marks.old }
{
    row_read(
        n, data_bits, data, value_bits, value, repeat, first, row, marks,
    )
    .into()
}

// The same, with the refusal by its name.
fn row_read(
    n: u64,
    data_bits: u32,
    data: &[u8],
    value_bits: u32,
    value: &[u8],
    repeat: &[u8],
    first: RowPlaces,
    row: &mut [u8],
    marks: &mut [u8],
) -> Result<u64, Refusal>
    ensures { delta_outcome (as_long_answer result) row.new marks.new ≡ delta_row n (record {
      data_bits = data_bits;
      data_bytes = «data».now;
      value_bits = value_bits;
      value_bytes = value.now;
      repeat_bytes = repeat.now;
    }) first
        row.old marks.old }
{
    let data = Elements::new(data, data_bits)?;
    let value = Elements::new(value, value_bits)?;
    judge_room(n, row.len(), marks.len())?;
    walk(false, n, data, value, repeat, first, row, marks)?;
    // judged, it is done
    let _ = walk(true, n, data, value, repeat, first, row, marks);
    Ok(n)
}
