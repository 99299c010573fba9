// A table and a picture's header that are accepted.
ghost use Rattle.std.specs.Prelude.{◌≡◌, ◌+◌, ◌*◌, ◌≤◌, length};
ghost use Rattle.answer.specs.Outcome.{answer_of};
ghost use Rattle.row_format.specs.Calls.{checked};
ghost use Rattle.pgm_to_sheet.specs.Picture.{PictureStands};

use pgm_format::PgmHeader;

// most   the bits of its longest item
#[derive(Clone, Copy)]
pub struct Table<'a> {
    pub bytes: &'a [u8],
    pub most: u32,
    ghost accepted: { checked bytes.now ≡ answer_of 0 most },
    ghost short: { length bytes.now ≤ 32773 },
}

// front    the first bytes of the file
// header   what they say of the picture
#[derive(Clone, Copy)]
pub struct Picture<'a> {
    pub table: Table<'a>,
    pub front: &'a [u8],
    pub header: PgmHeader,
    ghost stands: { PictureStands table.bytes.now table.most front.now header },
}

impl<'a> Picture<'a> {
    // The bytes of a row.
    pub fn span(self) -> usize
        ensures span { result ≡ 2 * self.entry.header.width }
        ensures within { result ≤ 8192 }
    {
        2 * self.header.width as usize
    }

    // The place of row r in the file.
    pub fn row_place(self, r: u32) -> usize
        requires { r ≤ 65536 }
        ensures { result ≡ self.entry.header.start + 2 * self.entry.header.width * r }
    {
        self.header.start as usize + self.span() * r as usize
    }
}
