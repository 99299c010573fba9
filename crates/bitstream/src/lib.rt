// Bits in byte slices, the lowest bit of byte 0 first: little-endian numbers, bits moved by a count, fields of bits, and a
// writer of bit strings. The definitions are in specs/Bits.antt. Fields and a writer by the other order, the most significant
// bit of byte 0 first, are in `msb_field` and `msb_writer`; the definitions in specs/Msb.antt.
#![tactic(auto)]

pub mod byte;
pub mod copy;
pub mod field;
pub mod msb_field;
pub mod msb_writer;
pub mod number;
pub mod shift;
pub mod writer;
