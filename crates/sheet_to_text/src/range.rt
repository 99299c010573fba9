// Which rows are asked for.
ghost use Rattle.std.specs.Prelude.{◌≡◌, ◌≤◌, length};
ghost use Rattle.sheet_to_text.specs.RowRange.{before_dash, range_between, range_in, is_asked};

use text::read::read_decimal;

// The rows with these numbers and those between them.
#[derive(Clone, Copy)]
pub struct RowRange {
    pub first: u64,
    pub last: u64,
}

impl RowRange {
    // What `A-B` says; nothing where a word is not so.
    pub fn read(word: &[u8]) -> Option<RowRange>
        ensures { result ≡ range_in word.now }
    {
        let dash = before_dash(word);
        if dash == word.len() {
            return None;
        }
        let first = read_decimal(&word[..dash], 65535);
        let last = read_decimal(&word[dash + 1..], 65535);
        range_between(first, last)
    }

    // Whether the row of that number is asked for.
    pub fn has(self, row: u64) -> bool
        ensures { result ≡ is_asked self row }
    {
        self.first <= row && row <= self.last
    }
}

fn range_between(first: Option<u64>, last: Option<u64>) -> Option<RowRange>
    ensures { result ≡ range_between first last }
{
    let first = first?;
    let last = last?;
    if last < first {
        return None;
    }
    Some(RowRange { first, last })
}

// How many bytes stand before the first `-`.
fn before_dash(word: &[u8]) -> usize
    ensures is { result ≡ before_dash word.now }
    ensures within { result ≤ length word.now }
{
    for (i, b) in word.iter().enumerate() {
        if *b == b'-' {
            return i;
        }
    }
    word.len()
}
