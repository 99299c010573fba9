// What a flag gives that has taken t: how many elements, and the elements.
ghost use Rattle.std.specs.Prelude.{◌≡◌, ◌+◌, ◌^◌, ◌<◌, take, drop};
ghost use Rattle.delta_format.specs.Numbers.{elements_of};
ghost use Rattle.delta_format.specs.Row.{elements_for};
ghost use Rattle.delta_reader.specs.Flags.{flag_at, elements_given, FlagValues};
ghost use Rattle.delta_reader.specs.Puts.{RoomFor, PutsIf};

use crate::element::Elements;
use crate::flag::{Taken, is_bad};
use crate::put::{put_run, put_values};
use crate::value::value_at;
use delta_format::FirstValue;

pub fn given(down: u64, t: Taken) -> u64
    requires { t.count + t.values < 2 ^ 64 }
    ensures { result ≡ elements_given (flag_at down) t.count t.values }
{
    if down == 1 {
        return t.count;
    }
    if is_bad(down) {
        return t.count + t.values;
    }
    t.values
}

// The elements, where they are to be written.
pub fn put_flag(
    write: bool,
    down: u64,
    t: Taken,
    value: Elements,
    from: FirstValue,
    row: &mut [u8],
    marks: &mut [u8],
    at: u64,
)
    requires flag_values { FlagValues (flag_at down) t.values (drop from.0 (elements_of value.bits value.bytes.now)) }
    requires room_for { RoomFor row.old marks.old at (elements_given (flag_at down) t.count t.values) }
    ensures { PutsIf write row.old marks.old at
        (elements_for (flag_at down) t.count (take t.values (drop from.0 (elements_of value.entry.bits value.entry.bytes.now))))
        row.new marks.new }
{
    if !write {
        return;
    }
    if down == 1 {
        put_run(row, marks, at, t.count, value_at(value, from, 0), 0);
        return;
    }
    if is_bad(down) {
        put_run(row, marks, at, t.count, 2147483648, 1);
        put_values(row, marks, at + t.count, t.values, value, from);
        return;
    }
    put_values(row, marks, at, t.values, value, from);
}
