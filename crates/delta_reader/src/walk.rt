// A row's elements of DATA, one after the other. The same walk judges a row and writes it, so that the two cannot differ. `write` is
// a value: a closure that puts an element would hold both memories, and the contracts say of them what was put.
ghost use Rattle.answer.specs.Refusal.{result_number};
ghost use Rattle.delta_format.specs.Calls.{delta_row_at};
ghost use Rattle.delta_reader.specs.Puts.{RoomFor};
ghost use Rattle.delta_reader.specs.Walk.{Walked};

use crate::data::{after_data, data_at, data_ends};
use crate::element::Elements;
use crate::step::flag_step;
use crate::stretch::{Stretch, differences};
use answer::refusal::Refusal;
use bitstream::shift::power;
use delta_format::RowPlaces;

// The row's elements, which are written where `write` says so.
// at, from, counts   the next places in DATA, VALUE and REPEAT
// previous           the value before the next element, in offset binary
// left               the elements that the row still wants
pub fn walk(
    write: bool,
    n: u64,
    data: Elements,
    value: Elements,
    repeat: &[u8],
    first: RowPlaces,
    row: &mut [u8],
    marks: &mut [u8],
) -> Result<(), Refusal>
    requires { RoomFor row.old marks.old 0 n }
    ensures { Walked write n (delta_row_at n (record {
      data_bits = «data».entry.bits;
      data_bytes = «data».entry.bytes.now;
      value_bits = value.entry.bits;
      value_bytes = value.entry.bytes.now;
      repeat_bytes = repeat.now;
    }) first) row.old marks.old
        row.new marks.new (result_number result) }
{
    let top = 2147483647 + power(data.bits - 1) as u64;
    let mut at = first.data;
    let mut from = first.value;
    let mut counts = first.repeat;
    let mut previous = 0;
    let mut left = n;
    // no count of an index: a turn takes one element of DATA, and gives as many as that says
    while 0 < left {
        if data_ends(data, at) {
            return Err(Refusal::DeltaPlace);
        }
        let e = data_at(data, at);
        if top < e + 5 {
            at = after_data(at);
            let s = flag_step(
                write,
                top - e,
                left,
                previous,
                value,
                from,
                repeat,
                counts,
                row,
                marks,
                n - left,
            )?;
            previous = s.previous;
            from = s.value;
            counts = s.repeat;
            left -= s.given;
        } else {
            if left == n {
                return Err(Refusal::DeltaStart);
            }
            let s = differences(
                write,
                n,
                top,
                data,
                Stretch { at, previous, left },
                row,
                marks,
            )?;
            at = s.at;
            previous = s.previous;
            left = s.left;
        }
    }
    Ok(())
}
