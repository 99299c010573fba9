// Kind 1: the sheet's table.
ghost use Rattle.std.specs.Prelude.{◌≡◌, ◌<◌, IfErr};
ghost use Rattle.answer.specs.Outcome.{outcome};
ghost use Rattle.sheet_format.specs.Context.{Heading, Context, state_of};
ghost use Rattle.sheet_format.specs.Kind.Table.{table_kind};
ghost use Rattle.sheet_format.specs.Writing.{record_written};
ghost use Rattle.sheet_writer.specs.BeforeRoom.{before_room};
ghost use Rattle.sheet_writer.specs.Done.{record_answer, write_number};

use crate::done::{NotWritten, Written, count_of};
use crate::fields::put_record_fields;
use answer::refusal::Refusal;
use bitstream::copy::copy;
use row_packer::pack::pack;
use sheet_format::SheetState;
use sheet_format::kind::RecordKind;

// Length 4 and kind 2.
const FIELD_BYTES: usize = 6;

pub fn write_table(content: &[u8], state: SheetState, out: &mut [u8]) -> Result<Written, NotWritten>
    ensures { (c : Context) (h : Heading) → state_of c ≡ state
        → outcome (record_answer result) out.new ≡ record_written 1 h c content.now out.old }
{
    judge(content, state)?;
    let record_bytes = FIELD_BYTES + content.len();
    if out.len() < record_bytes {
        return Err(Refusal::Room.into());
    }
    copy(content, content.len(), &mut out[FIELD_BYTES..]);
    put_record_fields(RecordKind::Table, record_bytes as u32, out);
    Ok(Written {
        count: record_bytes as u32,
        state: state.after_table(),
    })
}

// The refusals before the one for room: 16, and 1 to 3.
fn judge(content: &[u8], state: SheetState) -> Result<(), NotWritten>
    ensures some { IfErr result (λ e. 0 < e.number) }
    ensures number { (c : Context) (h : Heading) → state_of c ≡ state → write_number result ≡ before_room table_kind h c content.now }
{
    state.table_place()?;
    // A packing of no pixels is refused exactly as its table is. The check is asked for in this way so that its copy of the
    // strings has one place on the stack, below packing, and none in the frame of the record call.
    let mut words = [0u8; 1];
    count_of(pack(content, &content[..0], &mut words))?;
    Ok(())
}
