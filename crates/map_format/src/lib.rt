// What source document 001 and the customer say of pressure mat maps. The definitions are in specs/; here are the limits that the
// code shares.
#![tactic(auto)]

// 128 rows of 128 counts, two bytes each.
pub const MAP_COUNTS: usize = 16384;

pub const COUNT_BYTES: usize = 32768;

// No map has more: 4096 groups of 3 + 4 * 22 bits; 1024 groups of 3 + 16 * 22 have 45440.
pub const MAX_MAP_BYTES: usize = 46592;
