// One item at a reader's place: the work of the reader, on plain parameters.
ghost use Rattle.std.specs.Prelude.{◌≡◌};
ghost use Rattle.answer.specs.Refusal.{result_number};
ghost use Rattle.row_reader.specs.Step.{start_place, impossible, place_number, as_read, item_read};

use answer::refusal::Refusal;
use code_table::check::check;
use row_format::MAX_PIXELS;
use row_item::{Item, Progress};
use row_unpacker::item::read_item;

// at         the bit place of the next item, from bit 0 of word 0
// count      the items given so far
// progress   what the row has come to
// opening    the number that opening answered: where it is not 0, every later call answers it too, and 11 where it is none of
//            the check's. A number, and no Refusal: the theorem `place_number-other` speaks of those that no opening answers
#[derive(Clone, Copy)]
pub struct Place {
    pub at: usize,
    pub count: u32,
    pub progress: Progress,
    pub opening: u32,
}

// An item, its pixel and the place after it.
#[derive(Clone, Copy)]
pub struct GivenItem {
    pub item: Item,
    pub pixel: u32,
    pub place: Place,
}

// The item at a place, whatever the table's bytes, the words and the place are. A refusal is at the place that was given: for 6
// to 9 its `at` is where the faulty item begins.
pub fn item_at(table: &[u8], words: &[u8], place: Place) -> Result<GivenItem, Refusal>
    ensures { as_read place result ≡ item_read table.now words.now place }
{
    place.judge()?;
    let got = read_item(table, words, place.at, place.progress)?;
    Ok(GivenItem {
        item: got.item,
        pixel: got.pixel,
        place: Place {
            at: got.next,
            count: place.count + 1,
            progress: place.progress.after(got.item, got.pixel),
            opening: place.opening,
        },
    })
}

impl Place {
    // Where a reader of these table bytes begins: "Opening it refuses 1, 2, 3".
    pub fn start(table: &[u8]) -> Place
        ensures { result ≡ start_place table.now }
    {
        let number = check(table).number;
        Place {
            at: 0,
            count: 0,
            progress: Progress::start(),
            opening: number,
        }
    }

    // What refuses before an item is read, in this order: opening's number, and 11 for one that no opening comes to; 11 for a
    // place that no reading has; "after 4096 items it answers 11".
    fn judge(self) -> Result<(), Refusal>
        ensures { result_number result ≡ place_number self }
    {
        match self.opening {
            0 => (),
            1 => return Err(Refusal::TableSize),
            2 => return Err(Refusal::TableString),
            3 => return Err(Refusal::TablePrefix),
            _ => return Err(Refusal::TooMany),
        }
        if self.impossible() {
            return Err(Refusal::TooMany);
        }
        if MAX_PIXELS <= self.count as u64 {
            return Err(Refusal::TooMany);
        }
        Ok(())
    }

    // No reading has this place: more than 4096 items; more than 27 bits for each; a previous height above 4093, or one before
    // any pixel has become previous.
    fn impossible(self) -> bool
        ensures { result ≡ impossible self }
    {
        let p = self.progress;
        let count = self.count as u64;
        if MAX_PIXELS < count {
            return true;
        }
        if 27 * count < self.at as u64 {
            return true;
        }
        if 4093 < p.previous {
            return true;
        }
        if p.begun {
            return false;
        }
        0 < p.previous
    }
}
