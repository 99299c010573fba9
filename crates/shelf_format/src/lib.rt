// What document 02's ticket 6 says of a shelf of tables that two parties share. The definitions are in specs/; here are the sizes
// and the type that the code shares.
#![tactic(auto)]

ghost use Rattle.std.specs.Prelude.{◌≡◌};
ghost use Rattle.shelf_format.specs.Calls.{as_place_changed};

use answer::refusal::Refusal;

// "twelve places of 8,193 words"
pub const PLACE_BYTES: usize = 32772;

// twelve of them
pub const SHELF_BYTES: usize = 393264;

// What putting and removing a table answer: the number, and where it is 0 the place that changed. A refusal has the place 0, a common
// one, which no put or removal changes.
#[repr(C)]
#[derive(Clone, Copy)]
pub struct PlaceChanged {
    pub number: u32,
    pub place: u32,
}

// What a put or a removal gave, as C has it.
impl From<Result<u32, Refusal>> for PlaceChanged {
    ghost from_gives = { λ given made. made ≡ as_place_changed given };

    fn from(given: Result<u32, Refusal>) -> PlaceChanged {
        match given {
            Ok(place) => PlaceChanged { number: 0, place },
            Err(refusal) => PlaceChanged {
                number: refusal.number(),
                place: 0,
            },
        }
    }
}
