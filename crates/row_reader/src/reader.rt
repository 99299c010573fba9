// The reader: a struct that holds the table, the lent words and its place.
ghost use Rattle.std.specs.Prelude.{◌≡◌};
ghost use Rattle.row_reader.specs.Step.{start_place, as_read, item_read};
ghost use Rattle.row_reader.specs.Taken.{taken_read, taken_from};

use crate::step::{GivenItem, Place, item_at};
use answer::refusal::Refusal;

#[derive(Clone, Copy)]
pub struct Reader<'a, 'b> {
    pub table: &'a [u8],
    pub words: &'b [u8],
    pub place: Place,
}

impl<'a, 'b> Reader<'a, 'b> {
    // A reader of these words under this table, at bit 0 of word 0.
    pub fn open(table: &'a [u8], words: &'b [u8]) -> Reader<'a, 'b>
        ensures { result ≡ record { table = table.entry; words = words.entry; place = start_place table.entry.now } }
    {
        Reader {
            table,
            words,
            place: Place::start(table),
        }
    }

    // The next item, with its pixel; the reader moves past it, and where it is refused stays. No Iterator's `next`: there is no
    // end, so each caller would take apart a Some that is always there.
    pub fn next(&mut self) -> Result<GivenItem, Refusal>
        ensures given { as_read self.old.place result ≡ item_read self.old.table.now self.old.words.now self.old.place }
        ensures moved { self.new ≡ record {
          table = self.old.table;
          words = self.old.words;
          place = (as_read self.old.place result).place;
        } }
    {
        let given = item_at(self.table, self.words, self.place)?;
        self.place = given.place;
        Ok(given)
    }
}

// What two calls give, one after the other.
#[derive(Clone, Copy)]
pub struct Taken {
    pub first: Result<GivenItem, Refusal>,
    pub second: Result<GivenItem, Refusal>,
}

// A reader is opened, and two items are taken: the second from where the first left it.
pub fn take_two<'a>(table: &'a [u8], words: &'a [u8]) -> Taken
    ensures { taken_read table.now result ≡ taken_from table.now words.now (start_place table.now) }
{
    let mut reader = Reader::open(table, words);
    Taken {
        first: reader.next(),
        second: reader.next(),
    }
}
