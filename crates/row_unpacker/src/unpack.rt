// Unpacking of one row: the whole call.
ghost use Rattle.std.specs.Prelude.{◌≡◌, ◌*◌, ◌≤◌, length};
ghost use Rattle.answer.specs.Outcome.{outcome, lent};
ghost use Rattle.answer.specs.Refusal.{refusal_number, result_number};
ghost use Rattle.bitstream.specs.Bits.{stream};
ghost use Rattle.row_format.specs.Table.{table_number};
ghost use Rattle.row_format.specs.Reading.{stray, first_number};
ghost use Rattle.row_format.specs.Calls.{unpacked};
ghost use Rattle.row_unpacker.specs.Row.{row_left};

use crate::row::read_row;
use crate::view::View;
use answer::refusal::Refusal;
use bitstream::copy::copy;
use bitstream::shift::low_bits;
use code_table::check::max_item_bits;
use row_format::{MAX_PIXELS, RowUnpacked};

// Unpacks n pixels from the words to the front of `pixels`, two bytes each; the count is the bits used. A refusal leaves
// `pixels` as it was, so the row is read to memory of this call and copied when it is whole.
pub fn unpack(table: &[u8], words: &[u8], n: u64, pixels: &mut [u8]) -> RowUnpacked
    ensures { outcome result pixels.new ≡ unpacked table.now words.now n pixels.old }
{
    match judge(table, n, pixels.len()) {
        Ok(()) => unpack_row(table, words, n as usize, pixels),
        // no bit was read, and there is no place
        Err(refusal) => refused(refusal, 0),
    }
}

// What refuses before the first item, where so many bytes are lent for the pixels.
fn judge(table: &[u8], n: u64, room: usize) -> Result<(), Refusal>
    ensures { result_number result ≡ first_number (lent room) table.now n }
{
    max_item_bits(table)?;
    if MAX_PIXELS < n {
        return Err(Refusal::TooMany);
    }
    if ((room / 2) as u64) < n {
        return Err(Refusal::Room);
    }
    Ok(())
}

// The same under an accepted table, of a count and memory that are in order.
fn unpack_row(table: &[u8], words: &[u8], n: usize, pixels: &mut [u8]) -> RowUnpacked
    requires table_value { table_number table.now ≡ 0 }
    requires n_bound { n ≤ 4096 }
    requires n_in_bounds { 2 * n ≤ length pixels.old }
    ensures { outcome result pixels.new ≡ row_left table.now words.now n pixels.old }
{
    let mut row = [0u8; 8192];
    match read_row(table, words, n, &mut row) {
        Ok(used) => {
            let bits = used as u32;
            if stray_bit(words, used) {
                return refused(Refusal::UnusedBit, bits);
            }
            copy(&row, 2 * n, pixels);
            RowUnpacked {
                number: 0,
                count: bits,
                at: 0,
            }
        }
        Err(fault) => refused(fault.refusal, fault.place as u32),
    }
}

fn refused(refusal: Refusal, at: u32) -> RowUnpacked
    ensures { result ≡ record { number = refusal_number refusal; count = 0; at = at } }
{
    RowUnpacked {
        number: refusal.number(),
        count: 0,
        at,
    }
}

// Whether an unused bit of the last used word is set.
fn stray_bit(words: &[u8], used: usize) -> bool
    ensures { result ≡ stray used (stream words.now) }
{
    let last = (used % 32) as u32;
    if last == 0 {
        return false;
    }
    let v = View::ahead(words, used);
    low_bits(v.window, 32 - last) != 0
}
