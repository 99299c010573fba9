// What follows the picture.
use crate::picture::Picture;
use command::input::Input;

// Says that bytes after the last row are not read, where there are any.
pub fn hint_rest(input: &Input, picture: Picture) {
    let end = picture.row_place(picture.header.rows);
    let mut byte = [0u8; 1];
    if end < picture.front.len() || 0 < input.source.read_once(&mut byte).unwrap_or(0) {
        input.hint(b"bytes after the picture are not read");
    }
}
