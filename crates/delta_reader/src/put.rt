// Elements of a row into the lent memory: four bytes a value, and a mark. Values come in offset binary.
ghost use Rattle.std.specs.Prelude.{◌+◌, ◌*◌, ◌≤◌, ◌<◌, [], ◌∷◌, map, length, take, drop};
ghost use Rattle.delta_format.specs.Numbers.{elements_of};
ghost use Rattle.delta_format.specs.Row.{good};
ghost use Rattle.delta_reader.specs.Offset.{offset_value};
ghost use Rattle.delta_reader.specs.Puts.{RoomFor, PutsElements, PutsAlike, PutsIf};

use crate::element::Elements;
use crate::value::value_at;
use bitstream::number::put_u32;
use delta_format::FirstValue;

// One element, whichever it is that this value and mark stand for.
pub fn put_element(row: &mut [u8], marks: &mut [u8], at: u64, v: u64, mark: u8)
    requires at_in_bounds { 4 * at + 4 ≤ length row.old }
    requires at_in_bounds_2 { at < length marks.old }
    ensures { PutsAlike v mark row.old marks.old at 1 row.new marks.new }
{
    let i = at as usize;
    put_u32(
        row,
        4 * i,
        ((v % 4294967296 + 2147483648) % 4294967296) as u32,
    );
    marks[i] = mark;
}

// A good element of the value v, where it is to be written.
pub fn put_good(write: bool, row: &mut [u8], marks: &mut [u8], at: u64, v: u64)
    requires room_for { RoomFor row.old marks.old at 1 }
    requires v_bound { v < 4294967296 }
    ensures { PutsIf write row.old marks.old at (good (offset_value v) ∷ []) row.new
        marks.new }
{
    if write {
        put_element(row, marks, at, v, 0);
    }
}

// The same element count times.
pub fn put_run(row: &mut [u8], marks: &mut [u8], at: u64, count: u64, v: u64, mark: u8)
    requires { RoomFor row.old marks.old at count }
    ensures { PutsAlike v mark row.old marks.old at count row.new marks.new }
{
    for i in 0..count {
        put_element(row, marks, at + i, v, mark);
    }
}

// The next count values.
pub fn put_values(
    row: &mut [u8],
    marks: &mut [u8],
    at: u64,
    count: u64,
    value: Elements,
    from: FirstValue,
)
    requires room_for { RoomFor row.old marks.old at count }
    requires count_in_bounds { count ≤ length (drop from.0 (elements_of value.bits value.bytes.now)) }
    ensures { PutsElements row.old marks.old at
        (map good (take count (drop from.0 (elements_of value.entry.bits value.entry.bytes.now)))) row.new marks.new }
{
    for i in 0..count {
        put_element(row, marks, at + i, value_at(value, from, i), 0);
    }
}
