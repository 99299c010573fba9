// The item reader as C has it: its place and its answers as structs of numbers.
ghost use Rattle.std.specs.Prelude.{◌≡◌, ◌≤◌};
ghost use Rattle.answer.specs.Refusal.{result_number};
ghost use Rattle.tahliruz.specs.Items.{item_first_number, place_of, flat_place, item_kind, item_step, refused_item, as_item, next_item};

use answer::refusal::Refusal;
use code_table::check::max_item_bits;
use row_item::{Item, Progress};
use row_reader::step::{Place, item_at};

// A reader's place. at: the bit place of the next item; count: the items given; previous: the previous height; begun: 0 where
// no pixel has become previous, else 1. Numbers of one size, so that no bytes lie unused between or after them.
#[repr(C)]
#[derive(Clone, Copy)]
pub struct ReaderPlace {
    pub at: u32,
    pub count: u32,
    pub previous: u32,
    pub begun: u32,
}

// What opening answers: the check's number, and the place of a row's first item.
#[repr(C)]
#[derive(Clone, Copy)]
pub struct ReaderOpened {
    pub number: u32,
    pub place: ReaderPlace,
}

// kind: 1 a step, with its size, 2 a bad pixel, 3 a bad bias, 4 a raw height; 0 where refused, and then place is as it was.
#[repr(C)]
#[derive(Clone, Copy)]
pub struct ItemAnswer {
    pub number: u32,
    pub kind: u32,
    pub step: i32,
    pub pixel: u32,
    pub place: ReaderPlace,
}

// What refuses before a place is looked at as Rattle has it: the table, as at every call; then a begun that is neither 0 nor 1.
fn judge(table: &[u8], p: ReaderPlace) -> Result<(), Refusal>
    ensures { result_number result ≡ item_first_number table.now p }
{
    max_item_bits(table)?;
    if 1 < p.begun {
        return Err(Refusal::TooMany);
    }
    Ok(())
}

// The item at a place.
pub fn next(table: &[u8], words: &[u8], p: ReaderPlace) -> Result<ItemAnswer, Refusal>
    ensures { as_item p result ≡ next_item table.now words.now p }
{
    judge(table, p)?;
    let given = item_at(table, words, place_of(p))?;
    Ok(ItemAnswer {
        number: 0,
        kind: kind_of(given.item),
        step: step_of(given.item),
        pixel: given.pixel,
        place: flat_place(given.place),
    })
}

// The place as Rattle has it, under a table that is accepted.
pub fn place_of(p: ReaderPlace) -> Place
    ensures { result ≡ place_of p }
{
    Place {
        at: p.at as usize,
        count: p.count,
        progress: Progress {
            begun: p.begun != 0,
            previous: p.previous,
        },
        opening: 0,
    }
}

pub fn flat_place(p: Place) -> ReaderPlace
    requires { p.at ≤ 4294967295 }
    ensures { result ≡ flat_place p }
{
    let progress = p.progress;
    ReaderPlace {
        at: p.at as u32,
        count: p.count,
        previous: progress.previous,
        begun: progress.begun as u32,
    }
}

pub fn refused(number: u32, place: ReaderPlace) -> ItemAnswer
    ensures { result ≡ refused_item place number }
{
    ItemAnswer {
        number,
        kind: 0,
        step: 0,
        pixel: 0,
        place,
    }
}

pub fn kind_of(item: Item) -> u32
    ensures { result ≡ item_kind item }
{
    match item {
        Item::Difference(_) => 1,
        Item::BadPixel => 2,
        Item::BadBias => 3,
        Item::Escape(_) => 4,
    }
}

pub fn step_of(item: Item) -> i32
    ensures { result ≡ item_step item }
{
    match item {
        Item::Difference(d) => d,
        Item::BadPixel => 0,
        Item::BadBias => 0,
        Item::Escape(_) => 0,
    }
}
