// Putting a table. Refusals: 5, 24, 1, 2, 3, 22.
ghost use Rattle.std.specs.Prelude.{◌≡◌, true, ◌≤◌, ◌<◌, length, MatchOption};
ghost use Rattle.answer.specs.Outcome.{outcome, ◌or_else◌};
ghost use Rattle.answer.specs.Refusal.{result_number};
ghost use Rattle.shelf_format.specs.Shelf.{is_party, view};
ghost use Rattle.shelf_format.specs.Calls.{short_number, first_free, offer_number, as_place_changed, shelf_put};

use crate::fill::fill_place;
use crate::place::is_free;
use crate::table::judge_table;
use answer::refusal::Refusal;
use shelf_format::{PlaceChanged, SHELF_BYTES};

// Puts the table to the lowest free place of the party's four. The answer is the number and that place.
pub fn put(shelf: &mut [u8], party: u32, table: &[u8]) -> PlaceChanged
    ensures { outcome result shelf.new ≡ shelf_put shelf.old party table.now }
{
    put_lowest(shelf, party, table).into()
}

// The same, with the refusal by its name.
fn put_lowest(shelf: &mut [u8], party: u32, table: &[u8]) -> Result<u32, Refusal>
    ensures { outcome (as_place_changed result) shelf.new ≡ shelf_put shelf.old party table.now }
{
    judge_put(shelf, party, table)?;
    let Some(free) = first_free(shelf, party) else {
        return Err(Refusal::ShelfFull);
    };
    let place = 4 + 4 * party + free;
    fill_place(shelf, place as usize, table);
    Ok(place)
}

// The refusals before the one for a full shelf.
fn judge_put(shelf: &[u8], party: u32, table: &[u8]) -> Result<(), Refusal>
    ensures { result_number result ≡ short_number shelf.now or_else offer_number party table.now }
{
    if shelf.len() < SHELF_BYTES {
        return Err(Refusal::Room);
    }
    if party < 2 {
        return judge_table(table);
    }
    Err(Refusal::NotItsPlace)
}

// Which of the party's four places is the lowest that is free.
fn first_free(shelf: &[u8], party: u32) -> Option<u32>
    requires in_bounds { 393264 ≤ length shelf.now }
    requires party_value { is_party party ≡ true }
    ensures { MatchOption result (first_free (view party shelf.now) party ≡ 4)
        (λ k. (k < 4) × (k ≡ first_free (view party shelf.now) party)) }
{
    let first = 4 + 4 * party as usize;
    for k in 0..4 {
        if is_free(shelf, first + k as usize) {
            return Some(k);
        }
    }
    None
}
