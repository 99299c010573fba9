// One flag of DATA: its elements into the row, and where the arrays are read next.
ghost use Rattle.std.specs.Prelude.{◌≡◌, true, ◌+◌, ◌^◌, ◌≤◌, ◌<◌, length, take, drop};
ghost use Rattle.delta_format.specs.Numbers.{elements_of};
ghost use Rattle.delta_reader.specs.Flags.{flag_at, is_counted};
ghost use Rattle.delta_reader.specs.Puts.{RoomFor};
ghost use Rattle.delta_reader.specs.Step.{LastValue, count_place, FlagStep};

use crate::element::Elements;
use crate::flag::{is_counted, take_flag};
use crate::give::{given, put_flag};
use crate::repeat::after_repeat;
use crate::value::{after_values, value_at};
use answer::refusal::Refusal;
use delta_format::{FirstRepeat, FirstValue};

// The elements given, the last value in offset binary, and the next places.
#[derive(Clone, Copy)]
pub struct Step {
    pub given: u64,
    pub previous: u64,
    pub value: FirstValue,
    pub repeat: FirstRepeat,
}

// The last of n values from a place on, or what it was before them.
fn last_value(previous: u64, n: u64, value: Elements, from: FirstValue) -> u64
    requires previous_bound { previous < 4294967296 }
    requires n_in_bounds { n ≤ length (drop from.0 (elements_of value.bits value.bytes.now)) }
    ensures { LastValue (take n (drop from.0 (elements_of value.entry.bits value.entry.bytes.now))) result }
{
    if n == 0 {
        return previous;
    }
    value_at(value, from, n - 1)
}

// The next place in REPEAT.
fn after_count(down: u64, at: FirstRepeat) -> FirstRepeat
    requires { is_counted (flag_at down) ≡ true → at.0 + 1 < 2 ^ 64 }
    ensures { result.0 ≡ count_place (flag_at down) at.0 }
{
    if is_counted(down) {
        return after_repeat(at);
    }
    at
}

// The flag that lies `down` below MAX, where `left` elements of the row are wanted, from element `at` on.
pub fn flag_step(
    write: bool,
    down: u64,
    left: u64,
    previous: u64,
    value: Elements,
    from: FirstValue,
    repeat: &[u8],
    counts: FirstRepeat,
    row: &mut [u8],
    marks: &mut [u8],
    at: u64,
) -> Result<Step, Refusal>
    requires previous_bound { previous < 4294967296 }
    requires room_for { RoomFor row.old marks.old at left }
    ensures { FlagStep write (flag_at down) left (elements_of value.entry.bits value.entry.bytes.now) (elements_of 32 repeat.now)
        from.0 counts.0 row.old marks.old at row.new marks.new result }
{
    let t = take_flag(down, left, value, from, repeat, counts)?;
    put_flag(write, down, t, value, from, row, marks, at);
    Ok(Step {
        given: given(down, t),
        previous: last_value(previous, t.values, value, from),
        value: after_values(from, t.values),
        repeat: after_count(down, counts),
    })
}
