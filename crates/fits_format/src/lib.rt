// What the FITS standard and the customer say of scans. The definitions are in specs/; here are the types and limits that the
// code shares.
#![tactic(auto)]

// What reading a header answers, as C has it: the number, and where it is 0 the pixels of a row, the rows, the byte where the image
// starts, and the bytes written, those of the plain table's record. A refusal has 0 for every value.
#[repr(C)]
#[derive(Clone, Copy)]
pub struct ImageHeader {
    pub number: u32,
    pub width: u32,
    pub rows: u32,
    pub start: u32,
    pub count: u32,
}

// The most that an axis may have.
pub const MAX_AXIS: u32 = 4096;

// A header's cards have eighty bytes each, and a block has 36 of them; END comes in the first ten blocks.
pub const CARD_BYTES: usize = 80;

pub const BLOCK_BYTES: usize = 2880;

pub const MAX_CARDS: usize = 360;
