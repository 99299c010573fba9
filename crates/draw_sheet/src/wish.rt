// What the words of a command line ask for, all within its limits.
ghost use Rattle.std.specs.Prelude.{◌≤◌};

// The heights in grey, from the lowest to the highest.
#[derive(Clone, Copy)]
pub struct Grey {
    pub low: u32,
    pub high: u32,
    ghost order: { low ≤ high },
    ghost most: { high ≤ 4093 },
}

// A map.
// name    the place of its name on the command line
// group   the pixels of its groups
// total   its photons
#[derive(Clone, Copy)]
pub struct MapWish {
    pub name: usize,
    pub group: u32,
    pub total: u64,
}

// times   how many times each height stands in each direction
// grey    the heights in grey
// sheet   the place of the sheet's name, where one is given
// out     the place of the picture's name, where it goes to a file
// map     the map, where one is asked for
#[derive(Clone, Copy)]
pub struct Wish {
    pub times: u32,
    pub grey: Grey,
    pub sheet: Option<usize>,
    pub out: Option<usize>,
    pub map: Option<MapWish>,
    ghost some: { 1 ≤ times },
    ghost few: { times ≤ 15 },
}
