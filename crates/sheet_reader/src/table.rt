// A table in a record.
ghost use Rattle.std.specs.Prelude.{◌≡◌, ◌≤◌, ◌<◌, length, IfErr};
ghost use Rattle.row_format.specs.Table.{table_number};
ghost use Rattle.sheet_format.specs.Context.{Context, state_of};
ghost use Rattle.sheet_reader.specs.Answers.{read_answer, read_number};
ghost use Rattle.sheet_reader.specs.Leaves.{table_judged};

use crate::answers::{Refused, accepted, bits_of};
use answer::refusal::Refusal;
use row_unpacker::unpack::unpack;
use sheet_format::kind::RecordKind;
use sheet_format::{RecordRead, SheetState};

pub fn read_table(body: &[u8], whole: u32, state: SheetState) -> Result<RecordRead, Refused>
    requires { length body.now ≤ 32772 }
    ensures { (c : Context) → state_of c ≡ state → read_answer result ≡ table_judged whole c body.now }
{
    if body.len() % 4 != 0 {
        return Err(Refusal::Record.into());
    }
    state.table_place()?;
    check_table(body)?;
    let words = (body.len() / 4) as u32;
    Ok(accepted(RecordKind::Table, 0, words, 0, whole, state.after_table()))
}

// An unpacking of no pixels is refused exactly as its table is. The check is asked for in this way so that its copy of the
// strings has one place on the stack, below unpacking, and none in the frame of the record call.
fn check_table(table: &[u8]) -> Result<(), Refused>
    ensures number { read_number result ≡ table_number table.now }
    ensures some { IfErr result (λ e. 0 < e.number) }
{
    let mut pixels = [0u8; 1];
    bits_of(unpack(table, table, 0, &mut pixels))?;
    Ok(())
}
