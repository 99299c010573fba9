// The items of a row, as packing writes and reading gives them, and what a row's pixels have come to.
#![tactic(auto)]

ghost use Rattle.std.specs.Prelude.{◌≡◌};
ghost use Rattle.row_format.specs.Row.{fresh};
ghost use Rattle.row_item.specs.Coded.{Followed, progress};

// Document 01: "An item is thus one of four: a step with its size, bad pixel, bad bias, or raw with its height".
#[derive(Clone, Copy)]
pub enum Item {
    Difference(i32),
    BadPixel,
    BadBias,
    Escape(u32),
}

// Whether a pixel of this row has become previous, and the previous height: 0 at the row's start. No Option of the height: the
// theorems `reader-impossible` and `next-impossible` speak of a place with a height before any pixel has become previous.
#[derive(Clone, Copy)]
pub struct Progress {
    pub begun: bool,
    pub previous: u32,
}

impl Progress {
    // At a row's start.
    pub fn start() -> Progress
        ensures { result ≡ progress fresh }
    {
        Progress {
            begun: false,
            previous: 0,
        }
    }

    // What a row has come to after an item that stands for `pixel`.
    pub fn after(self, item: Item, pixel: u32) -> Progress
        ensures { Followed self item pixel result }
    {
        let started = Progress {
            begun: true,
            previous: pixel,
        };
        match item {
            Item::Difference(_) => started,
            Item::BadPixel => self,
            Item::BadBias => self,
            // "only if no pixel of this row has yet become previous"
            Item::Escape(_) => if self.begun { self } else { started },
        }
    }
}
