// The text of one sheet.
ghost use Rattle.std.specs.Prelude.{◌≡◌, ◌≤◌, take};
ghost use Rattle.sheet_stream.specs.AcceptedRecord.{AcceptedRecord};
ghost use Rattle.sheet_to_text.specs.SheetText.{NextText};

use crate::line::put_record_text;
use crate::memory::Memory;
use crate::range::RowRange;
use command::input::Input;
use command::program::{Program, Stopped, Unwritten};
use sheet_stream::progress::begin;
use sheet_stream::step::{SheetStep, take_record};
use sheet_verdict::say_verdict;

// The rows that are asked for, and how the sheet ends. Where reading fails, that is said, and how it ends is not.
pub fn write_text(input: &Input, range: RowRange) {
    let mut memory = Memory {
        bytes: [0u8; 32778],
        table: [0u8; 32772],
        content: [0u8; 16384],
        text: [0u8; 24616],
    };
    let _ = write_records(input, range, &mut memory);
}

// No run uses up so many records.
fn write_records(input: &Input, range: RowRange, memory: &mut Memory) -> Result<(), Stopped> {
    let mut at = begin();
    for _ in 0..u64::MAX {
        let step = take_record(
            input,
            &mut memory.bytes,
            &mut memory.table,
            &mut memory.content,
            at,
        )?;
        if step.last {
            say_verdict(input.program, &memory.bytes[..step.taken], step);
            return Ok(());
        }
        write_record(input.program, range, step, memory)?;
        at = step.next;
    }
    Err(Stopped::Unread)
}

// The record that was read last.
fn write_record(
    program: Program,
    range: RowRange,
    step: SheetStep,
    memory: &mut Memory,
) -> Result<(), Unwritten>
    requires taken_bound { step.taken ≤ 32778 }
    requires accepted_record { AcceptedRecord (take step.taken memory.old.bytes) step.read memory.old.content }
    ensures { memory.new.table ≡ memory.old.table }
{
    let n = put_record_text(&mut memory.text, range, step, &memory.content);
    print_text(
        program,
        range,
        &memory.bytes[..step.taken],
        &memory.text[..n],
    )
}

// Writes what the text gains by a record; nothing else of it goes out. `held`, the bytes that were read of the record, says what
// that must be; nothing else is done with them.
fn print_text(program: Program, range: RowRange, held: &[u8], text: &[u8]) -> Result<(), Unwritten>
    requires { NextText range held.now text.now }
{
    program.print(text)
}
