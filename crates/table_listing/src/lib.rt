// The listing of a table: its strings in tree order, a line each. It is given out in blocks of whole lines, so that whoever
// prints it needs little memory. The definitions are in specs/Listing.antt.
#![tactic(auto)]

mod arrange;
mod block;
mod line;
mod string;

ghost use Rattle.std.specs.Prelude.{◌≡◌, ◌≤◌, length};
ghost use Rattle.answer.specs.Outcome.{outcome};
ghost use Rattle.row_format.specs.Table.{table_number};
ghost use Rattle.table_listing.specs.Listed.{as_listed};
ghost use Rattle.table_listing.specs.Listing.{block};

use answer::refusal::Refusal;
use arrange::{arrange, number};
use block::list_lines;
use code_table::check::max_item_bits;

// How many lines a call put, and how many bytes they take.
#[derive(Clone, Copy)]
pub struct Listed {
    pub lines: usize,
    pub bytes: usize,
}

// Puts the lines of a table's strings from the line `first` on, counted from 0, at the front of `out`: as many as fit whole,
// and none where the listing has ended. It refuses 1, 2, 3 for the table, and 5 where the first of these lines does not fit;
// no line has more than 128 bytes.
pub fn list_table(table: &[u8], first: usize, out: &mut [u8]) -> Result<Listed, Refusal>
    ensures { outcome (as_listed result) out.new ≡ block table.now first out.old }
{
    max_item_bits(table)?;
    // a table has at most 8190 strings
    let mut list = [0u16; 8190];
    let mut scratch = [0u16; 8190];
    list_strings(table, &mut list, &mut scratch, first, out)
}

// The same of an accepted table; the places of its strings are arranged in `list`.
fn list_strings(
    table: &[u8],
    list: &mut [u16],
    scratch: &mut [u16],
    first: usize,
    out: &mut [u8],
) -> Result<Listed, Refusal>
    requires table_value { table_number table.now ≡ 0 }
    requires in_bounds { 8190 ≤ length list.old }
    requires in_bounds_2 { 8190 ≤ length scratch.old }
    ensures { outcome (as_listed result) out.new ≡ block table.now first out.old }
{
    let count = table.len() / 4 - 3;
    let places = &mut list[..count];
    number(places);
    arrange(table, places, scratch, 27);
    list_lines(table, places, first, out)
}
