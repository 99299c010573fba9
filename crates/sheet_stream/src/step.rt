// One step: a record is read, and its content put into lent memory.
ghost use Rattle.std.specs.Prelude.{◌≡◌, ◌≤◌, ◌<◌, IfOk, OnErr, length, take};
ghost use Rattle.sheet_format.specs.Stream.{held_of};
ghost use Rattle.sheet_stream.specs.Progress.{CarriedFits};
ghost use Rattle.sheet_stream.specs.Step.{end_step, StepMade};

use crate::input::fill_record;
use crate::progress::{SheetProgress, number_at_end};
use command::input::Input;
use command::program::Unread;
use sheet_format::{RecordRead, refused};
use sheet_reader::read_record;

// last     whether the sheet has ended here
// taken    the bytes that were read, none at the sheet's end
// read     what reading the record answered; where the sheet has ended the number says how, and the place where
// next     what is carried on
#[derive(Clone, Copy)]
pub struct SheetStep {
    pub last: bool,
    pub taken: usize,
    pub read: RecordRead,
    pub next: SheetProgress,
}

// The next record of the sheet in `file`. Its bytes go to the front of `bytes`, its content to that of `content`, and a table to
// that of `table`. What comes next, by the bytes that were read, is what sheet_format defines (`next_of`). No contract can say that
// reading moves the input's next bytes, fewer than asked only at its end: with that it is the sheet's next record (`front-held`).
pub fn take_record(
    input: &Input,
    bytes: &mut [u8],
    table: &mut [u8],
    content: &mut [u8],
    at: SheetProgress,
) -> Result<SheetStep, Unread>
    requires in_bounds { 32778 ≤ length bytes.old }
    requires in_bounds_2 { 32772 ≤ length table.old }
    requires in_bounds_3 { 16384 ≤ length content.old }
    requires index_bound { at.index < 18446744073709551615 }
    requires carried_fits { CarriedFits at table.old }
    ensures taken { IfOk result (λ step. step.taken ≤ 32778) }
    ensures fits { IfOk result (λ step. CarriedFits step.next table.new) }
    ensures made { IfOk result (λ step. StepMade (take step.taken bytes.new) at table.old step table.new content.new) }
    ensures err { OnErr result ((table.new ≡ table.old) × (content.new ≡ content.old)) }
{
    let count = fill_record(input, bytes)?;
    if count == 0 {
        return Ok(end(0, refused(number_at_end(at.index)), at));
    }
    Ok(read_one(&bytes[..count], table, content, at))
}

// The sheet has ended, as `read` says.
fn end(taken: usize, read: RecordRead, at: SheetProgress) -> SheetStep
    ensures { result ≡ end_step taken read at }
{
    SheetStep {
        last: true,
        taken,
        read,
        next: at,
    }
}

// The record's content goes to `content`, and a table to `table`.
fn read_one(bytes: &[u8], table: &mut [u8], content: &mut [u8], at: SheetProgress) -> SheetStep
    requires bytes_nonzero { 0 < length bytes.now }
    requires bytes_value { bytes.now ≡ held_of bytes.now }
    requires in_bounds { 32772 ≤ length table.old }
    requires in_bounds_2 { 16384 ≤ length content.old }
    requires index_bound { at.index < 18446744073709551615 }
    requires carried_fits { CarriedFits at table.old }
    ensures taken { result.taken ≡ length bytes.now }
    ensures fits { CarriedFits result.next table.new }
    ensures made { StepMade bytes.now at table.old result table.new content.new }
{
    let read = read_record(&table[..at.kept], bytes, at.state, content);
    if read.number != 0 {
        return end(bytes.len(), read, at);
    }
    SheetStep {
        last: false,
        taken: bytes.len(),
        read,
        next: at.after(read, bytes, table),
    }
}
