// What stands in a place of the shelf, looked at where it lies. (A row's call checks the table, and that check copies the string
// words, as of any table.)
ghost use Rattle.std.specs.Prelude.{◌≡◌, true, ◌+◌, ◌*◌, ◌≤◌, ◌<◌, length};
ghost use Rattle.answer.specs.Outcome.{◌or_else◌};
ghost use Rattle.answer.specs.Refusal.{result_number};
ghost use Rattle.bitstream.specs.Bits.{words_of};
ghost use Rattle.row_format.specs.Table.{table_size};
ghost use Rattle.shelf_format.specs.Shelf.{place as place_of, is_free};
ghost use Rattle.shelf_format.specs.Calls.{short_number, held_number};
ghost use Rattle.table_shelf.specs.Place.{TableEnds};

use answer::refusal::Refusal;
use code_table::header::table_size;
use shelf_format::{PLACE_BYTES, SHELF_BYTES};

// Whether the place is free.
pub fn is_free(shelf: &[u8], place: usize) -> bool
    requires { 32772 * place + 32772 ≤ length shelf.now }
    ensures { result ≡ is_free (place_of shelf.now place) }
{
    size_at(shelf, place) == 0
}

// The refusals of a call that names a place, before its table is looked at: 5, 24, 23. `may` is whether the party may.
pub fn judge_held(shelf: &[u8], may: bool, place: u32) -> Result<(), Refusal>
    requires { may ≡ true → place < 12 }
    ensures { result_number result ≡ short_number shelf.now or_else held_number may (place_of shelf.now place) }
{
    if shelf.len() < SHELF_BYTES {
        return Err(Refusal::Room);
    }
    if !may {
        return Err(Refusal::NotItsPlace);
    }
    if is_free(shelf, place as usize) {
        return Err(Refusal::NoTable);
    }
    Ok(())
}

// Where the place's table ends on the shelf; where its place ends, if tableSize says more than a place holds.
pub fn table_end(shelf: &[u8], place: usize) -> usize
    requires { 32772 * place + 32772 ≤ length shelf.now }
    ensures { TableEnds shelf.now place result }
{
    let bytes = 24 + 4 * size_at(shelf, place) as usize;
    PLACE_BYTES * place + bytes.min(PLACE_BYTES)
}

// The third word of what stands in the place.
fn size_at(shelf: &[u8], place: usize) -> u32
    requires { 32772 * place + 32772 ≤ length shelf.now }
    ensures { result ≡ table_size (words_of (place_of shelf.now place)) }
{
    let start = PLACE_BYTES * place;
    table_size(&shelf[start..start + PLACE_BYTES])
}
