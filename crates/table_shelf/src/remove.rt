// Removing a table. Refusals: 5, 24, 23; the table itself is not judged.
ghost use Rattle.std.specs.Prelude.{◌≡◌};
ghost use Rattle.answer.specs.Outcome.{outcome};
ghost use Rattle.answer.specs.Refusal.{result_number};
ghost use Rattle.shelf_format.specs.Calls.{as_place_changed, remove_refusal, shelf_removed};

use crate::fill::fill_place;
use crate::party::is_own;
use crate::place::judge_held;
use answer::refusal::Refusal;
use shelf_format::PlaceChanged;

// Frees a place of the party's own. The answer is the number and the place.
pub fn remove(shelf: &mut [u8], party: u32, place: u32) -> PlaceChanged
    ensures { outcome result shelf.new ≡ shelf_removed shelf.old party place }
{
    remove_own(shelf, party, place).into()
}

// The same, with the refusal by its name.
fn remove_own(shelf: &mut [u8], party: u32, place: u32) -> Result<u32, Refusal>
    ensures { outcome (as_place_changed result) shelf.new ≡ shelf_removed shelf.old party place }
{
    judge_remove(shelf, party, place)?;
    fill_place(shelf, place as usize, &[]);
    Ok(place)
}

fn judge_remove(shelf: &[u8], party: u32, place: u32) -> Result<(), Refusal>
    ensures { result_number result ≡ remove_refusal shelf.now party place }
{
    judge_held(shelf, is_own(party, place), place)
}
