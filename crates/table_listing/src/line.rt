// The line of a string: its name, a space, its bits.
ghost use Rattle.std.specs.Prelude.{◌+◌, ◌≤◌, ◌<◌, map, length};
ghost use Rattle.bitstream.specs.Bits.{words_of};
ghost use Rattle.row_format.specs.Table.{codeword, table_size};
ghost use Rattle.code_table.specs.Check.{WholeTable};
ghost use Rattle.text.specs.Text.{digit};
ghost use Rattle.text.specs.Put.{Put};
ghost use Rattle.table_listing.specs.Line.{name, line};

use crate::string::string_word;
use bitstream::shift::bit_of;
use code_table::entry::difference_of;
use text::number::put_integer;
use text::put::put_bytes;

// At most 128 bytes.
pub fn put_line(out: &mut [u8], at: usize, table: &[u8], place: u16) -> usize
    requires whole_table { WholeTable table.now }
    requires place_bound { place < 3 + table_size (words_of table.now) }
    requires at_in_bounds { at + 128 ≤ length out.old }
    ensures put { Put out.old at (line (words_of table.now) place) result out.new }
    ensures most { result ≤ at + 128 }
{
    let named = put_name(out, at, table, place);
    let spaced = put_bytes(out, named, b" ");
    let spelled = put_bits(out, spaced, string_word(table, place));
    put_bytes(out, spelled, b"\n")
}

// An entry is named by its step.
fn put_name(out: &mut [u8], at: usize, table: &[u8], place: u16) -> usize
    requires whole_table { WholeTable table.now }
    requires place_bound { place < 3 + table_size (words_of table.now) }
    requires at_in_bounds { at + 21 ≤ length out.old }
    ensures put { Put out.old at (name (words_of table.now) place) result out.new }
    ensures most { result ≤ at + 21 }
{
    match place {
        0 => put_bytes(out, at, b"raw"),
        1 => put_bytes(out, at, b"bad-pixel"),
        2 => put_bytes(out, at, b"bad-bias"),
        _ => put_integer(out, at, difference_of(table, place as u32 - 3)),
    }
}

// The bits of the string that a word holds, the first one first, as digits.
fn put_bits(out: &mut [u8], at: usize, w: u32) -> usize
    requires { at + 31 ≤ length out.old }
    ensures put { Put out.old at (map digit (codeword w)) result out.new }
    ensures most { result ≤ at + 31 }
{
    let n = w % 32;
    for i in 0..n {
        out[at + i as usize] = b'0' + bit_of(w / 32, i) as u8;
    }
    at + n as usize
}
