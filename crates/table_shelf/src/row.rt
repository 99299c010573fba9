// A row under the table of a place. Refusals: 5 for the shelf, 24, 23, and then those of the row's own call, 1, 2 and 3 first.
ghost use Rattle.std.specs.Prelude.{◌≡◌, IfOk};
ghost use Rattle.answer.specs.Outcome.{outcome};
ghost use Rattle.answer.specs.Refusal.{result_number};
ghost use Rattle.shelf_format.specs.Shelf.{table_in, view};
ghost use Rattle.shelf_format.specs.Calls.{use_refusal, shelf_packed, shelf_unpacked, shelf_room};

use crate::party::may_use;
use crate::place::{judge_held, table_end};
use answer::Answer;
use answer::refusal::Refusal;
use row_format::RowUnpacked;
use shelf_format::PLACE_BYTES;

pub fn pack(shelf: &[u8], party: u32, place: u32, pixels: &[u8], words: &mut [u8]) -> Answer
    ensures { outcome result words.new ≡ shelf_packed shelf.now party place pixels.now
        words.old }
{
    match used_table(shelf, party, place) {
        Ok(table) => row_packer::pack::pack(table, pixels, words),
        Err(refusal) => Err(refusal).into(),
    }
}

pub fn unpack(
    shelf: &[u8],
    party: u32,
    place: u32,
    words: &[u8],
    n: u64,
    pixels: &mut [u8],
) -> RowUnpacked
    ensures { outcome result pixels.new ≡ shelf_unpacked shelf.now party place words.now n
        pixels.old }
{
    match used_table(shelf, party, place) {
        Ok(table) => row_unpacker::unpack::unpack(table, words, n, pixels),
        Err(refusal) => RowUnpacked {
            number: refusal.number(),
            count: 0,
            at: 0,
        },
    }
}

pub fn room(shelf: &[u8], party: u32, place: u32, n: u64) -> Answer
    ensures { result ≡ shelf_room shelf.now party place n }
{
    match used_table(shelf, party, place) {
        Ok(table) => row_packer::room::room(table, n),
        Err(refusal) => Err(refusal).into(),
    }
}

// The table that the party uses, not looked at yet.
fn used_table(shelf: &[u8], party: u32, place: u32) -> Result<&[u8], Refusal>
    ensures number { result_number result ≡ use_refusal shelf.now party place }
    ensures table { IfOk result (λ table. table.now ≡ table_in (view party shelf.now place)) }
{
    judge_use(shelf, party, place)?;
    let start = PLACE_BYTES * place as usize;
    let end = table_end(shelf, place as usize);
    Ok(&shelf[start..end])
}

// The refusals before the table is looked at.
fn judge_use(shelf: &[u8], party: u32, place: u32) -> Result<(), Refusal>
    ensures { result_number result ≡ use_refusal shelf.now party place }
{
    judge_held(shelf, may_use(party, place), place)
}
