// The listing of one sheet.
ghost use Rattle.std.specs.Prelude.{◌≤◌, IfOk, length, take};
ghost use Rattle.sheet_listing.specs.Turns.{NextLine, EndLine};

use crate::turn::{Turn, take_turn};
use code_table::check::max_item_bits;
use command::input::Input;
use command::program::{Program, Stopped, Unwritten};
use sheet_stream::progress::begin;

// Where reading fails, that is said on standard error, and the listing has no last line.
pub fn list_input(input: &Input) -> Result<(), Unwritten> {
    let mut bytes = [0u8; 32778];
    let mut table = [0u8; 32772];
    let mut line = [0u8; 128];
    list_sheet(input, &mut bytes, &mut table, &mut line)
}

fn list_sheet(
    input: &Input,
    bytes: &mut [u8],
    table: &mut [u8],
    line: &mut [u8],
) -> Result<(), Unwritten>
    requires in_bounds { 32778 ≤ length bytes.old }
    requires in_bounds_2 { 32772 ≤ length table.old }
    requires in_bounds_3 { 128 ≤ length line.old }
{
    match list_records(input, bytes, table, line) {
        Ok(turn) => {
            print_last(input.program, &bytes[..turn.taken], &line[..turn.count])?;
            hint_table(input, bytes, turn);
            Ok(())
        }
        Err(Stopped::Unread) => Ok(()),
        Err(Stopped::Unwritten) => Err(Unwritten),
    }
}

// The last turn, whose line is yet to be written.
// bytes    the record that is listed
// table    the sheet's table, from its first record on
// line     the record's line
// at       what is carried; its index is a number that no run uses up, so that the loop ends
// No contract can say that reading moves the input's next bytes, fewer than asked only at its end, and that writing moves the
// line's bytes: only that is left to tests. With it each line is the listing's next (sheet_format, `front-held`; sheet_listing,
// `next-line`).
fn list_records(
    input: &Input,
    bytes: &mut [u8],
    table: &mut [u8],
    line: &mut [u8],
) -> Result<Turn, Stopped>
    requires in_bounds { 32778 ≤ length bytes.old }
    requires in_bounds_2 { 32772 ≤ length table.old }
    requires in_bounds_3 { 128 ≤ length line.old }
    ensures taken { IfOk result (λ turn. turn.taken ≤ 32778) }
    ensures line { IfOk result (λ turn. turn.count ≤ length line.new) }
    ensures ends { IfOk result (λ turn. EndLine (take turn.taken bytes.new) (take turn.count line.new)) }
{
    let mut at = begin();
    for _ in 0..u64::MAX {
        let turn = take_turn(input, bytes, table, line, at)?;
        if turn.last {
            return Ok(turn);
        }
        print_line(input.program, &bytes[..turn.taken], &line[..turn.count])?;
        at = turn.next;
    }
    Err(Stopped::Unread)
}

// Writes the next line of a listing; nothing else of it goes out. `held`, the bytes that its turn read, says what the line
// must be; nothing else is done with them.
fn print_line(program: Program, held: &[u8], line: &[u8]) -> Result<(), Unwritten>
    requires { NextLine held.now line.now }
{
    program.print(line)
}

// The same of its last line.
fn print_last(program: Program, held: &[u8], line: &[u8]) -> Result<(), Unwritten>
    requires { EndLine held.now line.now }
{
    print_line(program, held, line)
}

// Where the first record is refused: says so if the input is a table. A table has at most 32772 bytes: with four more that
// are read it is too long, however much follows.
fn hint_table(input: &Input, bytes: &mut [u8], turn: Turn)
    requires { 32778 ≤ length bytes.old }
{
    let taken = turn.taken;
    if turn.next.index != 0 || taken == 0 || 32772 < taken {
        return;
    }
    let rest = input
        .fill(&mut bytes[taken..32776])
        .unwrap_or_else(|unread| unread.count);
    if max_item_bits(&bytes[..taken + rest]).is_ok() {
        input.hint(b"this is a table; list_table lists it");
    }
}
