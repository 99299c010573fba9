// The first pass: how large the picture is, and the verdict.
ghost use Rattle.std.specs.Prelude.{◌≡◌, ◌≤◌, IfOk, take};
ghost use Rattle.sheet_format.specs.Kinds.{kind_of};
ghost use Rattle.sheet_format.specs.Stream.{held_of};
ghost use Rattle.sheet_stream.specs.Progress.{carried_by};
ghost use Rattle.draw_sheet.specs.Measure.{width_with, PassEnds, BrokenBy, Measures};

use crate::claims::take_claims;
use crate::measured::Measured;
use crate::memory::Memory;
use command::input::Input;
use command::program::Unread;
use sheet_format::kind::is_row;
use sheet_stream::progress::begin;
use sheet_stream::step::{SheetStep, take_record};
use sheet_verdict::say_verdict;

// How the records ended.
// width   the most heights of a row
// step    the last step
#[derive(Clone, Copy)]
pub struct Passed {
    pub width: u32,
    pub step: SheetStep,
}

// The extent of a sheet; the verdict goes to standard error.
pub fn measure(input: &Input, memory: &mut Memory) -> Result<Measured, Unread>
    ensures { IfOk result (λ m. Measures m.width m.height) }
{
    let passed = pass_records(input, memory)?;
    let step = passed.step;
    say_verdict(input.program, &memory.bytes[..step.taken], step);
    let at = step.next;
    let state = at.state;
    if step.read.number == 0 {
        return Ok(Measured {
            width: passed.width.max(1),
            height: state.least_row.max(1),
            rows: at.rows,
        });
    }
    let behind = measure_behind(
        input,
        memory,
        step.taken,
        passed.width,
        state.least_row,
        at.rows,
    )?;
    Ok(behind)
}

// The same where a record is refused, of which the bytes that are held stand at the front of `bytes`. The rows before it are at
// most so wide, least is the number behind the last of them, and `rows` is how many they are.
fn measure_behind(
    input: &Input,
    memory: &mut Memory,
    taken: usize,
    width: u32,
    least: u32,
    rows: u64,
) -> Result<Measured, Unread>
    requires taken_bound { taken ≤ 32778 }
    requires bytes_value { take taken memory.old.bytes ≡ held_of (take taken memory.old.bytes) }
    requires width_bound { (width ≤ 4096) × (least ≤ 65536) }
    ensures { IfOk result (λ m. BrokenBy (take taken memory.old.bytes) width least m) }
{
    let claimed = take_claims(input, memory, taken)?;
    Ok(Measured {
        width: width.max(16),
        height: claimed.max(least + 16),
        rows,
    })
}

// No run uses up so many records.
// at   what is carried
fn pass_records(input: &Input, memory: &mut Memory) -> Result<Passed, Unread>
    ensures taken { IfOk result (λ p. p.step.taken ≤ 32778) }
    ensures ends { IfOk result (λ p. PassEnds (take p.step.taken memory.new.bytes)
        (carried_by p.step.next memory.new.table) p.width p.step.read.number p.step.read.at) }
{
    let mut at = begin();
    let mut width = 0;
    for _ in 0..u64::MAX {
        let step = take_record(
            input,
            &mut memory.bytes,
            &mut memory.table,
            &mut memory.content,
            at,
        )?;
        if step.last {
            return Ok(Passed { width, step });
        }
        let read = step.read;
        width = wider(width, read.kind, read.count);
        at = step.next;
    }
    Err(Unread { count: 0 })
}

// The most heights of a row, with a record that has so many.
fn wider(width: u32, kind: u32, count: u32) -> u32
    ensures { result ≡ width_with (kind_of kind).holds width count }
{
    if is_row(kind) {
        return width.max(count);
    }
    width
}
