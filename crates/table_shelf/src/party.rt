// Whose a place is.
ghost use Rattle.std.specs.Prelude.{◌≡◌};
ghost use Rattle.shelf_format.specs.Shelf.{is_own, may_use};

// Whether the place is one of the party's own four.
#[tactic(auto, unfolding(shelf_format::specs::Shelf::is_own))]
pub fn is_own(party: u32, place: u32) -> bool
    ensures { result ≡ is_own party place }
{
    party < 2 && 4 + 4 * party <= place && place < 8 + 4 * party
}

// Whether the party may use the place's table: the common ones are for both.
#[tactic(auto, unfolding(shelf_format::specs::Shelf::may_use, shelf_format::specs::Shelf::is_own))]
pub fn may_use(party: u32, place: u32) -> bool
    ensures { result ≡ may_use party place }
{
    if place < 4 {
        return party < 2;
    }
    is_own(party, place)
}
