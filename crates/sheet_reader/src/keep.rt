// The content of a record to lent memory.
ghost use Rattle.std.specs.Prelude.{◌≡◌, ◌++◌, ◌≤◌, length, take, drop};

use bitstream::copy::copy;

// The first n bytes of `from` to the front of `content`. Where less than the room is lent, the record is only judged and
// nothing is kept.
pub fn keep(from: &[u8], n: usize, room: usize, content: &mut [u8])
    requires n_in_bounds { n ≤ length from.now }
    requires n_le_room { n ≤ room }
    ensures { room ≤ length content.old
        → content.new ≡ take n from.now ++ drop n content.old }
{
    if content.len() < room {
        return;
    }
    copy(from, n, content);
}
