// Scans as FITS images into the records of a sheet: one call for the header, which writes the plain table's record, and one a
// row. What they answer is defined in fits_format's specs/Header.antt and specs/Image.antt; the verdict's line in specs/Verdict.antt.
#![tactic(auto)]

mod card;
mod cards;
mod header;
mod integer;
mod pixels;
mod plain;
mod row;
pub mod verdict;

// For a program that reads a header block by block.
pub use cards::{count_cards, find_end};
pub use header::fits_header;
pub use integer::unsigned_digits;
pub use pixels::copy_pixels;
pub use row::fits_row;
