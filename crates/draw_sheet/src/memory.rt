// The memory of the two passes: one record and one part of the picture are held at a time.

// bytes     the record that is read
// table     the sheet's table, from its first record on
// content   what the record stores
// out       a part of the picture
#[derive(Drop)]
pub struct Memory {
    pub bytes: [u8; 32778],
    pub table: [u8; 32772],
    pub content: [u8; 16384],
    pub out: [u8; 65536],
}
