// A file's name as text, which std takes alone.
use std::io;
use std::io::Error;
use std::str::from_utf8;

// Of the system: a name that is too long, and one that is no text.
const ENAMETOOLONG: i32 = 36;

const EILSEQ: i32 = 84;

pub fn path_of(name: &[u8]) -> io::Result<&str> {
    if 4096 <= name.len() {
        return Err(Error::from_raw_os_error(ENAMETOOLONG));
    }
    from_utf8(name).map_err(|_| Error::from_raw_os_error(EILSEQ))
}
