// The rows of a picture, in the order of their numbers.
ghost use Rattle.std.specs.Prelude.{◌≡◌, ℕ, ◌+◌, ◌*◌, ◌≤◌, ◌<◌, IfOk, OnOk, length, take};
ghost use Rattle.bitstream.specs.Bits.{halves_of};
ghost use Rattle.sheet_format.specs.Sheet.{absent, present};
ghost use Rattle.sheet_to_pgm.specs.Written.{RowSettled, RowBrought, lines_after};

use crate::frame::Frame;
use crate::lines::Lines;
use crate::memory::Memory;
use crate::pads::put_line;
use crate::reason::NoPicture;
use command::input::Input;
use command::program::{Program, Unwritten};
use sheet_format::kind::is_row;
use sheet_stream::progress::begin;
use sheet_stream::step::{SheetStep, take_record};

// The sheet is read as before. Where it is not what it was, that is said, and the picture ends there. No run uses up so many records.
// at      what is carried
// lines   the lines that are out: those before the least row that may come
pub fn write_rows(input: &Input, frame: Frame, memory: &mut Memory) -> Result<(), NoPicture> {
    let mut at = begin();
    let mut lines = Lines::none();
    for _ in 0..u64::MAX {
        let step = take_record(
            input,
            &mut memory.bytes,
            &mut memory.table,
            &mut memory.content,
            at,
        )?;
        if step.last {
            if lines.count() == frame.count {
                return Ok(());
            }
            return Err(changed(input));
        }
        lines = write_record(input, frame, lines, step, memory)?;
        at = step.next;
    }
    Err(NoPicture)
}

fn changed(input: &Input) -> NoPicture {
    input.hint(b"the sheet is not what it was when it was read first");
    NoPicture
}

// The lines that the record read last settles: of a row, those of the numbers that it passes over, and its own.
fn write_record(
    input: &Input,
    frame: Frame,
    lines: Lines,
    step: SheetStep,
    memory: &mut Memory,
) -> Result<Lines, NoPicture>
    requires taken_bound { step.taken ≤ 32778 }
    requires row_brought { RowBrought (take step.taken memory.old.bytes) lines.next step.read memory.old.content }
    ensures table { memory.new.table ≡ memory.old.table }
    ensures lines { IfOk result (λ out. out.next ≡ lines_after lines.next step.read) }
{
    let read = step.read;
    if !is_row(read.kind) {
        return Ok(lines);
    }
    // all rows were within the picture when the sheet was read first
    if frame.count <= read.row || frame.width < read.count {
        return Err(changed(input));
    }
    let held = &memory.bytes[..step.taken];
    let lines = write_gap(
        input.program,
        frame,
        lines,
        read.row,
        held,
        &mut memory.line,
    )?;
    let pixels = &memory.content[..2 * read.count as usize];
    Ok(write_line(input.program, frame, lines, pixels, held, &mut memory.line)?)
}

// The lines before number `to`, which are missing.
fn write_gap(
    program: Program,
    frame: Frame,
    lines: Lines,
    to: u32,
    held: &[u8],
    line: &mut [u8],
) -> Result<Lines, Unwritten>
    requires in_bounds { 8192 ≤ length line.old }
    requires next_le_to { (lines.next ≤ to) × (to < 65536) }
    requires by_index { (n : ℕ) → lines.next ≤ n → n < to → RowSettled held.now n absent }
    ensures { IfOk result (λ out. out.next ≡ to) }
{
    let n = put_line(line, frame.pad, frame.width as usize, &[]);
    let mut out = lines;
    for _ in lines.count()..to {
        out = out.print(program, frame, held, &line[..n])?;
    }
    Ok(out)
}

// The line of a row with these heights.
fn write_line(
    program: Program,
    frame: Frame,
    lines: Lines,
    pixels: &[u8],
    held: &[u8],
    line: &mut [u8],
) -> Result<Lines, Unwritten>
    requires in_bounds { 8192 ≤ length line.old }
    requires pixels_len_bound { (length (halves_of pixels.now) ≤ frame.width) × (length pixels.now ≤ 8192) }
    requires next_bound { lines.next < 65536 }
    requires row_settled { RowSettled held.now lines.next (present (halves_of pixels.now)) }
    ensures { IfOk result (λ out. out.next ≡ lines.next + 1) }
{
    let n = put_line(line, frame.pad, frame.width as usize, pixels);
    lines.print(program, frame, held, &line[..n])
}
