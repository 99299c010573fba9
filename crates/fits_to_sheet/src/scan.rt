// A scan whose header is held and accepted.
ghost use Rattle.std.specs.Prelude.{◌≡◌, ◌≤◌};
ghost use Rattle.fits_to_sheet.specs.Scan.{ImageStands, row_span};

use fits_format::ImageHeader;

// header   the bytes of the header's blocks
// image    what they say of the image
#[derive(Clone, Copy)]
pub struct Scan<'a> {
    pub header: &'a [u8],
    pub image: ImageHeader,
    ghost stands: { ImageStands header.now image },
}

impl<'a> Scan<'a> {
    // The bytes to hold of a row: none where the block that has END is cut short, since no image comes then.
    pub fn row_span(self) -> usize
        ensures spans { result ≡ row_span self.entry.header.now }
        ensures within { result ≤ 8192 }
    {
        if self.header.len() < self.image.start as usize {
            return 0;
        }
        2 * self.image.width as usize
    }
}
