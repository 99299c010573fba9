// The check of a table, which every call makes anew: it answers for every byte slice.
ghost use Rattle.std.specs.Prelude.{◌≡◌, not, ◌+◌, ◌/◌, ◌≤◌, ◌<◌, length};
ghost use Rattle.answer.specs.Refusal.{as_answer};
ghost use Rattle.row_format.specs.Table.{wrong_word};
ghost use Rattle.row_format.specs.Calls.{checked};
ghost use Rattle.code_table.specs.Check.{WholeTable, SizeJudged, AllGathered, codeword_words, codewords_judged};

use crate::header::{low_limit, table_size, word_at};
use answer::Answer;
use answer::refusal::Refusal;
use bitstream::shift::power;
use prefix_free::prefix_free;

// The string words stand from word 3 on: raw, bad pixel and bad bias, then the entries.
const FIRST_CODEWORD: usize = 3;

// The number of a table's bytes, and M where they are accepted.
pub fn check(table: &[u8]) -> Answer
    ensures { result ≡ checked table.now }
{
    max_item_bits(table).into()
}

// M of a table's bytes, or why they are refused.
pub fn max_item_bits(table: &[u8]) -> Result<u32, Refusal>
    ensures { as_answer result ≡ checked table.now }
{
    if !well_sized(table) {
        return Err(Refusal::TableSize);
    }
    // a table has at most 8190 string words
    let mut scratch = [0u32; 8190];
    check_codewords(table, &mut scratch)
}

// The same, where the sizes are in order; the string words are copied to `scratch` and moved about there.
#[tactic(auto, using(crate::specs::Check::Laws::whole_table))]
fn check_codewords(table: &[u8], scratch: &mut [u32]) -> Result<u32, Refusal>
    requires whole_table { WholeTable table.now }
    requires in_bounds { 8190 ≤ length scratch.old }
    ensures { as_answer result ≡ checked table.now }
{
    let escape = word_at(table, 3) % 32;
    if 15 < escape {
        return Err(Refusal::TableString);
    }
    let count = table.len() / 4 - FIRST_CODEWORD;
    let words = &mut scratch[..count];
    let Some(longest) = gather(table, words) else {
        return Err(Refusal::TableString);
    };
    judge(words, longest, escape)
}

// Of string words that are in order.
#[tactic(auto, unfolding(crate::specs::Check::codewords_judged))]
fn judge(words: &mut [u32], longest: u32, escape: u32) -> Result<u32, Refusal>
    requires { escape < 32 }
    ensures { as_answer result ≡ codewords_judged words.old longest escape }
{
    if prefix_free(words) {
        Ok(longest.max(escape + 12))
    } else {
        Err(Refusal::TablePrefix)
    }
}

// Whether the word count, tableSize and lowLimit are in order.
fn well_sized(table: &[u8]) -> bool
    ensures { SizeJudged table.now result }
{
    if table.len() < 24 {
        return false;
    }
    let size = table_size(table) as u64;
    let low = low_limit(table) as u64;
    if size < 1 {
        return false;
    }
    if 8187 < low + size {
        return false;
    }
    // whole words, and as many as named: one test, which keeps the check small enough to be put in line (docs/DECISIONS.md, 123)
    table.len() as u64 == 24 + 4 * size
}

// Whether a string word is in order: its length is 1 to 27 and no bit is set above the string.
#[tactic(auto, unfolding(row_format::specs::Table::wrong_word))]
fn well_formed(w: u32) -> bool
    ensures { result ≡ not (wrong_word w) }
{
    let len = w % 32;
    1 <= len && len <= 27 && w / 32 < power(len)
}

// Copies the string words of a table, and answers how long the longest codeword is; nothing where a word is not in order.
fn gather(table: &[u8], words: &mut [u32]) -> Option<u32>
    requires { length words.old + 3 ≤ length table.now / 4 }
    ensures { AllGathered (codeword_words table.now (length words.old)) result words.new }
{
    let mut longest: u32 = 0;
    for (i, word) in words.iter_mut().enumerate() {
        let w = word_at(table, i + FIRST_CODEWORD);
        if !well_formed(w) {
            return None;
        }
        *word = w;
        longest = longest.max(w % 32);
    }
    Some(longest)
}
