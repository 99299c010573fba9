// The codeword that begins the rest of a stream, in table order. Its place in the table: 0 escape, 1 bad pixel, 2 bad bias,
// 3 + i entry i.
ghost use Rattle.std.specs.Prelude.{◌<◌};
ghost use Rattle.bitstream.specs.Bits.{begins, words_of};
ghost use Rattle.row_unpacker.specs.Search.{Finds, CutShort, begun_by, Tested};

use crate::view::View;
use bitstream::shift::low_bits;
use code_table::header::word_at;

// The place of the first codeword of a table that begins the rest.
pub fn search(table: &[u8], v: View) -> Option<usize>
    ensures { Finds (words_of table.now) v result }
{
    for i in 3..table.len() / 4 {
        if v.is_begun_by(word_at(table, i)) {
            return Some(i - 3);
        }
    }
    None
}

// Whether the rest is a beginning of some codeword of a table.
pub fn cut_short(table: &[u8], v: View) -> bool
    ensures { CutShort (words_of table.now) v result }
{
    if 31 < v.left {
        return false;
    }
    for i in 3..table.len() / 4 {
        if v.begins(word_at(table, i)) {
            return true;
        }
    }
    false
}

impl View {
    // Whether the codeword of a word begins the rest. What is past the end is seen as 0, and is no bit of the rest.
    pub fn is_begun_by(self, word: u32) -> bool
        ensures { Tested begun_by word self result }
    {
        let len = word % 32;
        if self.left < len {
            return false;
        }
        low_bits(self.window, len) == low_bits(word / 32, len)
    }

    // Whether the rest, shorter than the window, is a beginning of the codeword of a word.
    fn begins(self, word: u32) -> bool
        requires { self.left < 32 }
        ensures { Tested begins word self result }
    {
        let left = self.left;
        if word % 32 < left {
            return false;
        }
        low_bits(word / 32, left) == self.window
    }
}
