// Heights as a binary PGM. The definitions are in specs/; here are the types and limits that the code shares.
#![tactic(auto)]

// What a header that is accepted says: the samples of a row, the rows, and the byte where the samples start.
#[derive(Clone, Copy)]
pub struct PgmHeader {
    pub width: u32,
    pub rows: u32,
    pub start: u32,
}

// A header ends within so many bytes.
pub const MAX_HEADER_BYTES: usize = 65536;

// The most samples of a row, and the most rows: those of a sheet.
pub const MAX_WIDTH: u32 = 4096;

pub const MAX_ROWS: u32 = 65536;
