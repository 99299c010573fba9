// REPEAT, read at places of its own type alone.
ghost use Rattle.std.specs.Prelude.{◌≡◌, ◌+◌, ◌<◌, ◌^◌, length, get_or, leb, pos};
ghost use Rattle.delta_format.specs.Numbers.{elements_of};
ghost use Rattle.delta_format.specs.Row.{count_of};

use crate::element::Elements;
use delta_format::FirstRepeat;

// Whether REPEAT has no element at this place.
pub fn repeat_ends(repeat: &[u8], at: FirstRepeat) -> bool
    ensures { result ≡ leb (length (elements_of 32 repeat.now)) at.0 }
{
    Elements::with_width(repeat, 32).count() <= at.0
}

// The count there, 0 for any below 1.
pub fn count_at(repeat: &[u8], at: FirstRepeat) -> u64
    requires { at.0 < length (elements_of 32 repeat.now) }
    ensures { result ≡ count_of (get_or (elements_of 32 repeat.now) at.0 (pos 0)) }
{
    Elements::with_width(repeat, 32)
        .at(at.0)
        .saturating_sub(2147483648)
}

// The next place.
pub fn after_repeat(at: FirstRepeat) -> FirstRepeat
    requires { at.0 + 1 < 2 ^ 64 }
    ensures { result.0 ≡ at.0 + 1 }
{
    FirstRepeat(at.0 + 1)
}
