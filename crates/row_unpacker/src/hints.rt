// Hints for a quick search. No two codewords of an accepted table begin the same bits, so a word whose codeword begins the
// rest is the one: a hint is tried and never trusted, and of what stands in the hints nothing is claimed.
//
// from 0      heads, by the window's low 12 bits: the word of a codeword of at most 12 bits; or 8192 and the length of the
//             shortest longer codeword that has these bits; or 0
// from 4096   slots, by a hash of its bits: the last word of a longer codeword, or 0
// from 8192   nexts, by that word: the word before it in the same slot, or 0
ghost use Rattle.std.specs.Prelude.{◌≡◌, ◌<◌};
ghost use Rattle.bitstream.specs.Bits.{words_of};
ghost use Rattle.row_format.specs.Table.{table_number};
ghost use Rattle.row_unpacker.specs.Search.{Finds};

use crate::search::search;
use crate::view::View;
use bitstream::shift::{low_bits, power};
use code_table::header::word_at;

// A table has at most 8193 words.
pub type Hints = [u16; 16385];

// The codeword of an accepted table that begins the rest.
pub fn hinted_search(table: &[u8], hints: &Hints, v: View) -> Option<usize>
    requires { table_number table.now ≡ 0 }
    ensures { Finds (words_of table.now) v result }
{
    if let Some(i) = guess(table, hints, v) {
        if 3 <= i {
            if i < table.len() / 4 {
                if v.is_begun_by(word_at(table, i)) {
                    return Some(i - 3);
                }
            }
        }
    }
    search(table, v)
}

// A word whose codeword may begin the rest.
fn guess(table: &[u8], hints: &Hints, v: View) -> Option<usize>
    requires { table_number table.now ≡ 0 }
{
    let head = wide(hints[(v.window % 4096) as usize]);
    if head <= 8192 {
        return Some(head);
    }
    for len in (head - 8192) as u32..28 {
        let s = slot(low_bits(v.window, len));
        let found = walk(table, hints, hints[4096 + s], v);
        if found.is_some() {
            return found;
        }
    }
    None
}

// The first word in a slot, from a word on, whose codeword begins the rest. A word's next is less, so the walk ends.
fn walk(table: &[u8], hints: &Hints, from: u16, v: View) -> Option<usize>
    requires { table_number table.now ≡ 0 }
{
    let words = table.len() / 4;
    let mut i = from as usize;
    while 0 < i {
        if words <= i {
            return None;
        }
        if v.is_begun_by(word_at(table, i)) {
            return Some(i);
        }
        let next = wide(hints[8192 + i]);
        if i <= next {
            return None;
        }
        i = next;
    }
    None
}

fn wide(x: u16) -> usize
    ensures { result < 65536 }
{
    x as usize
}

// The slot of a codeword's bits.
fn slot(bits: u32) -> usize
    ensures { result < 4096 }
{
    ((bits as u64 * 2654435761) / 1048576 % 4096) as usize
}

// Fills empty hints.
pub fn fill(table: &[u8], hints: &mut Hints)
    requires { table_number table.now ≡ 0 }
{
    for i in 3..table.len() / 4 {
        let word = word_at(table, i);
        let len = word % 32;
        let bits = word / 32;
        if len <= 12 {
            spread(hints, bits % 4096, len, i as u16);
        } else {
            link(hints, bits, len, i as u16);
        }
    }
}

// A codeword of at most 12 bits: word i stands at all heads that it begins, which are a power of two apart.
fn spread(hints: &mut Hints, bits: u32, len: u32, i: u16)
    requires { len < 32 }
{
    let step = power(len) as usize;
    let mut k = bits as usize;
    while k < 4096 {
        hints[k] = i;
        k += step;
    }
}

// A longer codeword: word i is the last in its slot, and the search from its head starts with its length at the latest.
fn link(hints: &mut Hints, bits: u32, len: u32, i: u16)
    requires len_bound { len < 32 }
    requires i_bound { i < 8193 }
{
    let s = 4096 + slot(bits);
    let k = (bits % 4096) as usize;
    hints[8192 + i as usize] = hints[s];
    hints[s] = i;
    hints[k] = lesser(hints[k], 8192 + len as u16);
}

// The lesser of two, where 0 stands for none.
fn lesser(a: u16, b: u16) -> u16 {
    if a == 0 { b } else { a.min(b) }
}
