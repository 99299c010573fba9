// The first pass: the sheet is judged, and the shape of its rows found.
ghost use Rattle.std.specs.Prelude.{◌≡◌, true, ◌<◌, IfOk};
ghost use Rattle.sheet_format.specs.Kind.{is_row};
ghost use Rattle.sheet_format.specs.Kinds.{kind_of};
ghost use Rattle.sheet_to_pgm.specs.LineShape.{shape_after, ShapeFound};

use crate::memory::Memory;
use crate::reason::NoPicture;
use crate::shape::LineShape;
use command::input::Input;
use sheet_format::RecordRead;
use sheet_format::kind::is_row;
use sheet_stream::progress::begin;
use sheet_stream::step::take_record;
use sheet_verdict::say_verdict;

// The shape of the rows of a sheet that is accepted. How the sheet ends is said on standard error; where reading fails, that is. No
// run uses up so many records.
pub fn judge_sheet(input: &Input, memory: &mut Memory) -> Result<LineShape, NoPicture>
    ensures { IfOk result (λ shape. ShapeFound shape) }
{
    let mut at = begin();
    let mut shape = LineShape::none();
    for _ in 0..u64::MAX {
        let step = take_record(
            input,
            &mut memory.bytes,
            &mut memory.table,
            &mut memory.content,
            at,
        )?;
        if step.last {
            say_verdict(input.program, &memory.bytes[..step.taken], step);
            if step.read.number == 0 {
                return Ok(shape);
            }
            return Err(NoPicture);
        }
        shape = shape_after(shape, step.read);
        at = step.next;
    }
    Err(NoPicture)
}

// With the record that was read last.
fn shape_after(shape: LineShape, read: RecordRead) -> LineShape
    requires { is_row (kind_of read.kind).holds ≡ true → read.row < 65536 }
    ensures { result ≡ shape_after shape read }
{
    if is_row(read.kind) {
        return shape.with_row(read.row, read.count);
    }
    shape
}
