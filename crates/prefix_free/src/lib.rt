// Whether the codewords of a table's words are free of prefixes: none equals or begins another. The words are parted by
// one bit of their codewords after the other, as in the code tree, so each word is looked at once for each of its bits.
#![tactic(auto)]

mod part;

ghost use Rattle.std.specs.Prelude.{◌≡◌, not, map, ◌<◌};
ghost use Rattle.row_format.specs.Table.{codeword, clash};
ghost use Rattle.prefix_free.specs.Branch.{Agree, clashes};

use part::{shortest, split};

// Whether no codeword of these words equals or begins another. It moves the words about.
pub fn prefix_free(words: &mut [u32]) -> bool
    ensures { result ≡ not (clash (map codeword words.old)) }
{
    free(words, 0)
}

// The same of words whose codewords agree in their first d bits. It goes at most 32 calls deep, since a codeword that has
// ended is not parted further.
fn free(s: &mut [u32], d: u32) -> bool
    requires d_bound { d < 32 }
    requires agree { Agree d s.old }
    ensures { result ≡ not (clashes s.old) }
{
    if s.len() < 2 {
        return true;
    }
    if shortest(s) <= d {
        return false;
    }
    let zeros = split(s, d);
    let (low, high) = s.split_at_mut(zeros);
    free(low, d + 1) && free(high, d + 1)
}
