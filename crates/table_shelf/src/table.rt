// The check of a table that is to be put on the shelf.
ghost use Rattle.std.specs.Prelude.{◌≡◌};
ghost use Rattle.answer.specs.Refusal.{result_number};
ghost use Rattle.row_format.specs.Table.{table_number};

use answer::refusal::Refusal;
use row_packer::pack::pack;

// A packing of no pixels is refused exactly as its table is. The check is asked for in this way so that its copy of the strings
// stands in one frame, packing's, where opening a shelf checks four tables.
pub fn judge_table(table: &[u8]) -> Result<(), Refusal>
    ensures { result_number result ≡ table_number table.now }
{
    match pack(table, &[], &mut []).number {
        0 => Ok(()),
        1 => Err(Refusal::TableSize),
        2 => Err(Refusal::TableString),
        _ => Err(Refusal::TablePrefix),
    }
}
