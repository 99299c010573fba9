// Which refusals show the place where reading stopped: document 02, ticket 2.
ghost use Rattle.std.specs.Prelude.{◌≡◌};
ghost use Rattle.row_format.specs.Place.{has_place, place_shown};

// 6 to 10.
pub fn has_place(number: u32) -> bool
    ensures { result ≡ has_place number }
{
    6 <= number && number <= 10
}

// The place for these, 0 for every other number.
pub fn place_shown(number: u32, place: u32) -> u32
    ensures { result ≡ place_shown number place }
{
    if has_place(number) { place } else { 0 }
}
