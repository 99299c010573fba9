// What is drawn.
use sheet_picture::View;

// view     what is looked at, and how
// counts   the bytes of the map's counts
#[derive(Clone, Copy)]
pub struct Scene<'a> {
    pub view: View,
    pub counts: &'a [u8],
}
