// One item at a place of a row's words. Document 01: "a read item comes with the place after it".
ghost use Rattle.std.specs.Prelude.{◌≡◌, ◌+◌, ◌/◌, ◌^◌, ◌≤◌, ◌<◌, length, drop};
ghost use Rattle.bitstream.specs.Bits.{words_of, stream};
ghost use Rattle.row_item.specs.Coded.{row_state};
ghost use Rattle.row_format.specs.Table.{table_number};
ghost use Rattle.row_format.specs.Row.{previous};
ghost use Rattle.row_unpacker.specs.View.{Seen};
ghost use Rattle.row_unpacker.specs.Search.{Finds};
ghost use Rattle.row_unpacker.specs.Item.{numbered, item_at, found_at, entry_at, HeightAt};

use crate::hints::{Hints, hinted_search};
use crate::search::{cut_short, search};
use crate::view::View;
use answer::refusal::Refusal;
use code_table::entry::signed_difference;
use code_table::header::{low_limit, word_at};
use row_item::{Item, Progress};

// An item, its pixel and the bit place after it.
#[derive(Clone, Copy)]
pub struct Got {
    pub pixel: u32,
    pub item: Item,
    pub next: usize,
}

// Why an item is refused, and the place where it begins.
#[derive(Clone, Copy)]
pub struct Fault {
    pub refusal: Refusal,
    pub place: usize,
}

impl From<Fault> for Refusal {
    ghost from_gives = { λ fault refusal. refusal ≡ fault.refusal };

    fn from(fault: Fault) -> Refusal {
        fault.refusal
    }
}

// The item at bit place `at`, where a row has come to p: for every table's bytes, accepted or not, and whatever words.
pub fn read_item(table: &[u8], words: &[u8], at: usize, p: Progress) -> Result<Got, Fault>
    requires { at ≤ 2 ^ 32 }
    ensures { numbered result ≡ item_at table.now words.now at p }
{
    let v = View::ahead(words, at);
    item_seen(table, words, at, p, v, search(table, v))
}

// The same under an accepted table, by hints.
pub fn hinted_item(
    table: &[u8],
    words: &[u8],
    hints: &Hints,
    at: usize,
    p: Progress,
) -> Result<Got, Fault>
    requires table_value { table_number table.now ≡ 0 }
    requires at_bound { at ≤ 2 ^ 32 }
    ensures { numbered result ≡ item_at table.now words.now at p }
{
    let v = View::ahead(words, at);
    item_seen(table, words, at, p, v, hinted_search(table, hints, v))
}

// The item at a place, from what is seen and found there. It is put in line at both its callers, as is what it calls: an answer
// that goes through memory costs a row a third of its time more.
#[inline(always)]
fn item_seen(
    table: &[u8],
    words: &[u8],
    at: usize,
    p: Progress,
    v: View,
    hit: Option<usize>,
) -> Result<Got, Fault>
    requires at_bound { at ≤ 2 ^ 32 }
    requires seen { Seen (drop at (stream words.now)) v }
    requires finds { Finds (words_of table.now) v hit }
    ensures { numbered result ≡ item_at table.now words.now at p }
{
    match hit {
        Some(j) => item_found(table, words, at, p, j),
        None => if cut_short(table, v) {
            Err(Fault {
                refusal: Refusal::WordsEnd,
                place: at,
            })
        } else {
            Err(Fault {
                refusal: Refusal::NoString,
                place: at,
            })
        },
    }
}

// The item whose codeword stands at place j of the table and begins the rest.
#[inline(always)]
pub fn item_found(
    table: &[u8],
    words: &[u8],
    at: usize,
    p: Progress,
    j: usize,
) -> Result<Got, Fault>
    requires at_bound { at ≤ 2 ^ 32 }
    requires j_in_bounds { j + 3 < length table.now / 4 }
    ensures { numbered result ≡ found_at (words_of table.now) (row_state p) (drop at (stream words.now)) at j }
{
    let len = (word_at(table, j + 3) % 32) as usize;
    match j {
        0 => height_after(words, at, len),
        1 => Ok(Got {
            pixel: 4095,
            item: Item::BadPixel,
            next: at + len,
        }),
        2 => Ok(Got {
            pixel: 4094,
            item: Item::BadBias,
            next: at + len,
        }),
        _ => entry_found(table, at, p, j - 3, len),
    }
}

// After an escape codeword (document 01: raw string) of len bits, "the pixel in 12 bits, least significant first".
fn height_after(words: &[u8], at: usize, len: usize) -> Result<Got, Fault>
    requires at_bound { at ≤ 2 ^ 32 }
    requires len_bound { len < 32 }
    ensures { HeightAt (drop at (stream words.now)) at len (numbered result) }
{
    let v = View::ahead(words, at + len);
    if v.left < 12 {
        return Err(Fault {
            refusal: Refusal::WordsEnd,
            place: at,
        });
    }
    let height = v.window % 4096;
    if height < 4094 {
        return Ok(Got {
            pixel: height,
            item: Item::Escape(height),
            next: at + len + 12,
        });
    }
    Err(Fault {
        refusal: Refusal::RawHeight,
        place: at,
    })
}

// The difference of entry i, whose codeword has len bits.
fn entry_found(table: &[u8], at: usize, p: Progress, i: usize, len: usize) -> Result<Got, Fault>
    requires at_bound { at ≤ 2 ^ 32 }
    requires i_in_bounds { i + 6 < length table.now / 4 }
    requires len_bound { len < 32 }
    ensures { numbered result ≡ entry_at (words_of table.now) (row_state p) at i len }
{
    let next = at + len;
    // counted from -4093: the difference, and the height that it leads to
    let count = i as u64 + low_limit(table) as u64;
    let height = previous_of(p) as u64 + count;
    if height < 4093 {
        return Err(Fault {
            refusal: Refusal::StepOutside,
            place: at,
        });
    }
    if 8186 < height {
        return Err(Fault {
            refusal: Refusal::StepOutside,
            place: at,
        });
    }
    let pixel = (height - 4093) as u32;
    Ok(Got {
        pixel,
        item: Item::Difference(signed_difference(count as u32)),
        next,
    })
}

// The previous height, 0 at the row's start.
fn previous_of(p: Progress) -> u32
    ensures { result ≡ previous (row_state p) }
{
    if p.begun { p.previous } else { 0 }
}
