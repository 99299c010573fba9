// One turn: a record is read and judged, and its line, or the last one, put into lent memory.
ghost use Rattle.std.specs.Prelude.{◌≡◌, ◌≤◌, ◌<◌, IfOk, OnErr, length, take};
ghost use Rattle.sheet_listing.specs.Line.{last_line};
ghost use Rattle.sheet_listing.specs.Turns.{turn_of};
ghost use Rattle.sheet_stream.specs.Progress.{carried_by, CarriedFits};
ghost use Rattle.list_sheet.specs.Step.{turned_by, end_turn, TurnMade};

use command::input::Input;
use command::program::Unread;
use sheet_listing::{list_end, list_record};
use sheet_stream::input::fill_record;
use sheet_stream::progress::{SheetProgress, number_at_end};

// last     whether the sheet has ended here
// taken    the bytes that were read, none at the sheet's end
// count    the bytes of the line
// next     what is carried on
#[derive(Clone, Copy)]
pub struct Turn {
    pub last: bool,
    pub taken: usize,
    pub count: usize,
    pub next: SheetProgress,
}

// With what was read, at the front of `bytes`, the turn that sheet_listing defines (`turn_of`) is made.
pub fn take_turn(
    input: &Input,
    bytes: &mut [u8],
    table: &mut [u8],
    line: &mut [u8],
    at: SheetProgress,
) -> Result<Turn, Unread>
    requires in_bounds { 32778 ≤ length bytes.old }
    requires in_bounds_2 { 32772 ≤ length table.old }
    requires in_bounds_3 { 128 ≤ length line.old }
    requires index_bound { at.index < 18446744073709551615 }
    requires carried_fits { CarriedFits at table.old }
    ensures taken { IfOk result (λ turn. turn.taken ≤ 32778) }
    ensures line { IfOk result (λ turn. turn.count ≤ length line.new) }
    ensures fits { IfOk result (λ turn. CarriedFits turn.next table.new) }
    ensures made { IfOk result (λ turn. TurnMade (take turn.taken bytes.new) at table.old turn table.new line.new) }
    ensures err { OnErr result ((table.new ≡ table.old) × (line.new ≡ line.old)) }
{
    let count = fill_record(input, bytes)?;
    if count == 0 {
        return Ok(end(0, number_at_end(at.index), 0, at, line));
    }
    Ok(list_one(&bytes[..count], table, line, at))
}

// The last line.
fn end(taken: usize, number: u32, bit: u32, at: SheetProgress, line: &mut [u8]) -> Turn
    requires { 128 ≤ length line.old }
    ensures turn { result ≡ end_turn taken number bit at }
    ensures within { result.count ≤ length line.new }
    ensures line { take result.count line.new ≡ last_line number bit at.index at.rows }
{
    let given = list_end(number, bit, at.index, at.rows, line);
    Turn {
        last: true,
        taken,
        count: given.count as usize,
        next: at,
    }
}

// The record's line goes to `line`, and a table to `table`.
fn list_one(bytes: &[u8], table: &mut [u8], line: &mut [u8], at: SheetProgress) -> Turn
    requires bytes_nonzero { 0 < length bytes.now }
    requires in_bounds { 32772 ≤ length table.old }
    requires in_bounds_2 { 128 ≤ length line.old }
    requires index_bound { at.index < 18446744073709551615 }
    requires carried_fits { CarriedFits at table.old }
    ensures taken { result.taken ≡ length bytes.now }
    ensures line { result.count ≤ length line.new }
    ensures fits { CarriedFits result.next table.new }
    ensures made { turned_by result table.new line.new ≡ turn_of (carried_by at table.old) bytes.now }
{
    let listed = list_record(&table[..at.kept], bytes, at.state, line);
    let read = listed.read;
    if read.number != 0 {
        return end(bytes.len(), read.number, read.at, at, line);
    }
    Turn {
        last: false,
        taken: bytes.len(),
        count: listed.count as usize,
        next: at.after(read, bytes, table),
    }
}
