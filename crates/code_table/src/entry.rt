// The differences (document 01: steps) that entries stand for, as i32 from -4093 to 4093.
ghost use Rattle.std.specs.Prelude.{◌≡◌, ◌≤◌, ◌<◌};
ghost use Rattle.bitstream.specs.Bits.{words_of};
ghost use Rattle.row_format.specs.Table.{table_size, signed_difference, entry_difference};
ghost use Rattle.code_table.specs.Check.{WholeTable};

use crate::header::low_limit;

// The signed difference that is counted k from -4093.
pub fn signed_difference(k: u32) -> i32
    requires { k ≤ 8186 }
    ensures { result ≡ signed_difference k }
{
    k as i32 - 4093
}

// The difference of entry i: "Entry i stands for the signed step i + lowLimit - 4093".
#[tactic(auto, using(crate::specs::Check::Laws::whole_table))]
pub fn difference_of(table: &[u8], i: u32) -> i32
    requires whole_table { WholeTable table.now }
    requires i_bound { i < table_size (words_of table.now) }
    ensures { result ≡ signed_difference (entry_difference (words_of table.now) i) }
{
    signed_difference(i + low_limit(table))
}
