// Reading of a map: the whole call.
ghost use Rattle.std.specs.Prelude.{◌≡◌, ◌*◌, ◌≤◌, ◌<◌, length};
ghost use Rattle.answer.specs.Outcome.{outcome};
ghost use Rattle.answer.specs.Refusal.{as_answer};
ghost use Rattle.bitstream.specs.Msb.{msb_bits_of};
ghost use Rattle.map_format.specs.Calls.{map_read, map_left, read_map};

use crate::count::copy_counts;
use crate::groups::groups;
use crate::size::position_bits;
use answer::Answer;
use answer::refusal::Refusal;
use map_format::COUNT_BYTES;

// Reads a map of groups of 4 or 16 pixels to the front of `counts`, two bytes each; the count is the bits used. A refusal leaves
// `counts` as it was, so the map is read to memory of this call and copied when it is whole.
pub fn read_map(group: u32, bytes: &[u8], total: u64, counts: &mut [u8]) -> Answer
    ensures { outcome result counts.new ≡ map_read group bytes.now total counts.old }
{
    read_sized(group, bytes, total, counts).into()
}

fn read_sized(group: u32, bytes: &[u8], total: u64, counts: &mut [u8]) -> Result<u32, Refusal>
    ensures { outcome (as_answer result) counts.new ≡ map_read group bytes.now total counts.old }
{
    let Some(k) = position_bits(group) else {
        return Err(Refusal::Record);
    };
    if counts.len() < COUNT_BYTES {
        return Err(Refusal::Room);
    }
    read_counts(k, bytes, total, counts)
}

// The same by the bits of a position, to memory that is large enough. The total is judged last.
fn read_counts(k: u32, bytes: &[u8], total: u64, counts: &mut [u8]) -> Result<u32, Refusal>
    requires k_nonzero { 0 < k }
    requires k_bound { k ≤ 4 }
    requires in_bounds { 32768 ≤ length counts.old }
    ensures { outcome (as_answer result) counts.new
        ≡ map_left (8 * length bytes.now) counts.old (read_map k total (msb_bits_of bytes.now)) }
{
    let mut own = [0u8; COUNT_BYTES];
    let all = groups(k, bytes, &mut own)?;
    if all.value as u64 != total {
        return Err(Refusal::MapTotal);
    }
    copy_counts(&own, counts);
    Ok(all.next as u32)
}
