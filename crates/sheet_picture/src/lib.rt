// The picture of a sheet, a row at a time: samples are indices of colours. The definitions are in specs/Colour.antt, Extent.antt,
// Grid.antt and View.antt; specs/Theorems.antt says what a picture shows.
#![tactic(auto)]

pub mod claim;
pub mod colour;
pub mod count;
pub mod height;
pub mod row;
pub mod run;
pub mod size;

// What is looked at, and how.
// times           how many times each height stands in each direction
// low, high       the heights in grey, both included
// beside          what stands to the right: 0 nothing, 1 the counts of a map, 2 a map that is refused
// most            the largest count of the map, at least 1
// width, height   the extent of the sheet, in heights
#[derive(Clone, Copy)]
pub struct View {
    pub times: u32,
    pub low: u32,
    pub high: u32,
    pub beside: u32,
    pub most: u32,
    pub width: u32,
    pub height: u32,
}
