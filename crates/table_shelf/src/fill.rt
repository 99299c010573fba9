// Writing a place: a table and then zeros.
ghost use Rattle.std.specs.Prelude.{◌≡◌, ◌++◌, ◌+◌, ◌-◌, ◌*◌, ◌≤◌, length, take, replicate};
ghost use Rattle.shelf_format.specs.Shelf.{placed, filled};

use bitstream::copy::copy;
use shelf_format::PLACE_BYTES;

// All bytes of the place: no word of what stood there is left behind.
pub fn fill_place(shelf: &mut [u8], place: usize, table: &[u8])
    requires place_in_bounds { 32772 * place + 32772 ≤ length shelf.old }
    requires table_len_bound { length table.now ≤ 32772 }
    ensures { shelf.new ≡ placed shelf.old place (filled table.now) }
{
    let start = PLACE_BYTES * place;
    fill(&mut shelf[start..start + PLACE_BYTES], table);
}

fn fill(to: &mut [u8], table: &[u8])
    requires to_len { length to.old ≡ 32772 }
    requires table_len_bound { length table.now ≤ 32772 }
    ensures { to.new ≡ filled table.now }
{
    copy(table, table.len(), to);
    to[table.len()..].fill(0);
}
