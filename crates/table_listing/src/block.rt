// A block of lines in lent memory: as many whole lines as there is room for.
ghost use Rattle.std.specs.Prelude.{◌≡◌, map, ◌+◌, ◌≤◌, ◌<◌, length, drop, MatchOption};
ghost use Rattle.answer.specs.Outcome.{outcome};
ghost use Rattle.bitstream.specs.Bits.{words_of, Below};
ghost use Rattle.row_format.specs.Table.{table_size};
ghost use Rattle.code_table.specs.Check.{WholeTable};
ghost use Rattle.table_listing.specs.Line.{line};
ghost use Rattle.table_listing.specs.Listed.{as_listed};
ghost use Rattle.table_listing.specs.Listing.{next_number, block_of};
ghost use Rattle.table_listing.specs.Append.{LineFits, LineOver};

use crate::Listed;
use crate::line::put_line;
use answer::refusal::Refusal;
use text::put::put_bytes;

// The lines of the strings at some places, from the place numbered `first` on.
pub fn list_lines(
    table: &[u8],
    list: &[u16],
    first: usize,
    out: &mut [u8],
) -> Result<Listed, Refusal>
    requires whole_table { WholeTable table.now }
    requires below { Below (3 + table_size (words_of table.now)) list.now }
    ensures { outcome (as_listed result) out.new ≡
        block_of (next_number (drop first (map (line (words_of table.now)) list.now)) (length out.old))
        (drop first (map (line (words_of table.now)) list.now)) out.old }
{
    put_lines(table, &list[first.min(list.len())..], out)
}

// The lines of the strings at some places, as many as fit. 5 where the first does not.
fn put_lines(table: &[u8], places: &[u16], out: &mut [u8]) -> Result<Listed, Refusal>
    requires whole_table { WholeTable table.now }
    requires below { Below (3 + table_size (words_of table.now)) places.now }
    ensures { outcome (as_listed result) out.new ≡
        block_of (next_number (map (line (words_of table.now)) places.now) (length out.old))
        (map (line (words_of table.now)) places.now) out.old }
{
    let mut lines = 0;
    let mut bytes = 0;
    for &place in places {
        let Some(next) = append_line(out, bytes, table, place) else {
            if lines == 0 {
                return Err(Refusal::Room);
            }
            break;
        };
        lines += 1;
        bytes = next;
    }
    Ok(Listed { lines, bytes })
}

// The line of the string at a place, put where it fits.
fn append_line(out: &mut [u8], at: usize, table: &[u8], place: u16) -> Option<usize>
    requires whole_table { WholeTable table.now }
    requires place_bound { place < 3 + table_size (words_of table.now) }
    requires at_in_bounds { at ≤ length out.old }
    ensures { MatchOption result (LineOver out.old at (line (words_of table.now) place) out.new)
        (λ next. LineFits out.old at (line (words_of table.now) place) next out.new) }
{
    let mut text = [0u8; 128];
    let n = put_line(&mut text, 0, table, place);
    append(out, at, &text[..n])
}

// A text put where it fits. The answer is the place after it.
fn append(out: &mut [u8], at: usize, text: &[u8]) -> Option<usize>
    requires { at ≤ length out.old }
    ensures { MatchOption result (LineOver out.old at text.now out.new)
        (λ next. LineFits out.old at text.now next out.new) }
{
    if out.len() - at < text.len() {
        return None;
    }
    Some(put_bytes(out, at, text))
}
