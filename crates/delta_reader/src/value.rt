// VALUE, read at places of its own type alone.
ghost use Rattle.std.specs.Prelude.{◌≡◌, ◌+◌, ◌-◌, ◌<◌, ◌^◌, length, get_or, pos};
ghost use Rattle.delta_format.specs.Numbers.{elements_of};
ghost use Rattle.delta_reader.specs.Offset.{Offset};

use crate::element::Elements;
use delta_format::FirstValue;

// How many elements VALUE has from this place on.
pub fn values_from(value: Elements, at: FirstValue) -> u64
    ensures { result ≡ length (elements_of value.entry.bits value.entry.bytes.now) - at.0 }
{
    value.count().saturating_sub(at.0)
}

// The element i places on, in offset binary.
pub fn value_at(value: Elements, at: FirstValue, i: u64) -> u64
    requires { at.0 + i < length (elements_of value.bits value.bytes.now) }
    ensures { Offset value.entry.bits (get_or (elements_of value.entry.bits value.entry.bytes.now) (at.0 + i) (pos 0)) result }
{
    value.at(at.0 + i)
}

// The place after n values.
pub fn after_values(at: FirstValue, n: u64) -> FirstValue
    requires { at.0 + n < 2 ^ 64 }
    ensures { result.0 ≡ at.0 + n }
{
    FirstValue(at.0 + n)
}
