// Differences one after the other: a loop of its own, since rows are mostly these and a loop with the flags in it is slower.
ghost use Rattle.std.specs.Prelude.{◌≡◌, ◌+◌, ◌-◌, ◌<◌};
ghost use Rattle.delta_format.specs.Numbers.{half_of, elements_of};
ghost use Rattle.delta_reader.specs.Puts.{RoomFor};
ghost use Rattle.delta_reader.specs.Stretch.{Stretched};

use crate::data::{after_data, data_at, data_ends};
use crate::element::Elements;
use crate::put::put_good;
use answer::refusal::Refusal;
use delta_format::FirstData;

// The next place, the last value in offset binary, and the elements that the row still wants.
#[derive(Clone, Copy)]
pub struct Stretch {
    pub at: FirstData,
    pub previous: u64,
    pub left: u64,
}

// As far as they go: to a flag, to the end of the row or of DATA, or to a sum that leaves 32 bits. top is MAX in offset binary.
pub fn differences(
    write: bool,
    n: u64,
    top: u64,
    data: Elements,
    first: Stretch,
    row: &mut [u8],
    marks: &mut [u8],
) -> Result<Stretch, Refusal>
    requires top_value { top ≡ 2147483647 + half_of «data».bits }
    requires left_lt_n { first.left < n }
    requires previous_bound { first.previous < 4294967296 }
    requires room_for { RoomFor row.old marks.old (n - first.left) first.left }
    ensures { Stretched write n «data».entry.bits (elements_of «data».entry.bits «data».entry.bytes.now) first row.old marks.old
        row.new marks.new result }
{
    let mut at = first.at;
    let mut previous = first.previous;
    let mut left = first.left;
    // what is left is counted down, as every way out answers it
    while 0 < left {
        if data_ends(data, at) {
            return Ok(Stretch { at, previous, left });
        }
        let e = data_at(data, at);
        if top < e + 5 {
            return Ok(Stretch { at, previous, left });
        }
        let sum = previous + e;
        if sum < 2147483648 {
            return Err(Refusal::DeltaSum);
        }
        if 6442450943 < sum {
            return Err(Refusal::DeltaSum);
        }
        previous = sum - 2147483648;
        put_good(write, row, marks, n - left, previous);
        at = after_data(at);
        left -= 1;
    }
    Ok(Stretch { at, previous, left })
}
