// Adaptive-precision numbers, signed and unsigned: read from the front of some bytes, and written in the fewest bytes.
// Document 01, "Adaptive-precision numbers"; the format is in source document 000, section 1.2.
#![tactic(auto)]

mod gather;
mod number;
mod read;
mod sign;
mod write;

pub use number::Number;
pub use read::{read_signed, read_unsigned, signed_number};
pub use write::{write_signed, write_unsigned};

// What reading answers: document 01's number, and where it is 0 the value and the bytes used. A refusal has 0 for both. Two
// structs with a number in each, since C has them so; in Rattle a reading is a Result of one generic Number.
#[repr(C)]
#[derive(Clone, Copy)]
pub struct SignedRead {
    pub number: u32,
    pub value: i32,
    pub used: u32,
}

#[repr(C)]
#[derive(Clone, Copy)]
pub struct UnsignedRead {
    pub number: u32,
    pub value: u32,
    pub used: u32,
}
