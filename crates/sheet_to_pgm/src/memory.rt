// The memory of the program: one record and one line are held at a time.

// bytes     the record that is read
// table     the sheet's table, from its first record on
// content   the heights of a row
// line      the bytes that are written
#[derive(Drop)]
pub struct Memory {
    pub bytes: [u8; 32778],
    pub table: [u8; 32772],
    pub content: [u8; 16384],
    pub line: [u8; 8192],
}
