// What the papers say of tables and rows. The definitions are in specs/; here are the limits and types that the code shares.
#![tactic(auto)]

pub mod place;

// Document 01: "Pixels are 0 to 4095; at most 4096 a row."
pub const MAX_PIXEL: u32 = 4095;

pub const MAX_PIXELS: u64 = 4096;

// What unpacking a row answers: document 01's number, and where it is 0 the bits used. `at` is the bit place where reading
// stopped, from the row's first word: of the faulty item for 6 to 9, of the first unused bit for 10, and 0 for every other
// number and where it is done.
#[repr(C)]
#[derive(Clone, Copy)]
pub struct RowUnpacked {
    pub number: u32,
    pub count: u32,
    pub at: u32,
}
