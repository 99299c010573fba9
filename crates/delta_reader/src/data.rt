// DATA, read at places of its own type alone.
ghost use Rattle.std.specs.Prelude.{◌≡◌, ◌+◌, ◌<◌, ◌^◌, length, get_or, leb, pos};
ghost use Rattle.delta_format.specs.Numbers.{elements_of};
ghost use Rattle.delta_reader.specs.Offset.{Offset};

use crate::element::Elements;
use delta_format::FirstData;

// Whether DATA has no element at this place.
pub fn data_ends(data: Elements, at: FirstData) -> bool
    ensures { result ≡ leb (length (elements_of «data».entry.bits «data».entry.bytes.now)) at.0 }
{
    data.count() <= at.0
}

// The element there, in offset binary.
pub fn data_at(data: Elements, at: FirstData) -> u64
    requires { at.0 < length (elements_of «data».bits «data».bytes.now) }
    ensures { Offset «data».entry.bits (get_or (elements_of «data».entry.bits «data».entry.bytes.now) at.0 (pos 0)) result }
{
    data.at(at.0)
}

// The next place.
pub fn after_data(at: FirstData) -> FirstData
    requires { at.0 + 1 < 2 ^ 64 }
    ensures { result.0 ≡ at.0 + 1 }
{
    FirstData(at.0 + 1)
}
