// The plain table's bytes, for both calls.
ghost use Rattle.std.specs.Prelude.{◌≡◌};
ghost use Rattle.row_format.specs.Plain.{plain_bytes};

use code_table::plain::plain_table;

pub fn plain_bytes() -> [u8; 2072]
    ensures { result ≡ plain_bytes }
{
    let mut table = [0u8; 2072];
    plain_table(&mut table);
    table
}
