// Writing a map.
ghost use Rattle.std.specs.Prelude.{◌≡◌, ◌/◌, ◌≤◌, ◌<◌, length};
ghost use Rattle.answer.specs.Outcome.{outcome, wrote_or_full};
ghost use Rattle.answer.specs.Refusal.{as_answer};
ghost use Rattle.bitstream.specs.Bits.{halves_of};
ghost use Rattle.map_format.specs.Writing.{group_bits};
ghost use Rattle.map_format.specs.Calls.{map_groups, map_bytes, map_written};
ghost use Rattle.mat_map.specs.Putting.{Room, Puts};
ghost use Rattle.mat_map.specs.Written.{group_at, MapPut};

use crate::put_group::put_group;
use crate::size::position_bits;
use answer::Answer;
use answer::refusal::Refusal;
use bitstream::copy::copy;
use bitstream::msb_writer::{MsbWriter, finish, start, total};
use bitstream::shift::power;
use map_format::{MAP_COUNTS, MAX_MAP_BYTES};

// Writes the map of the counts to the front of `out`: groups of 4 or 16 pixels. The answer is the number and the bytes that the
// map takes. Refused 14, 5, with the memory as it was.
pub fn write_map(group: u32, counts: &[u8], out: &mut [u8]) -> Answer
    ensures { outcome result out.new ≡ map_written group counts.now out.old }
{
    write_counts(group, counts, out).into()
}

fn write_counts(group: u32, counts: &[u8], out: &mut [u8]) -> Result<u32, Refusal>
    ensures { outcome (as_answer result) out.new ≡ map_written group counts.now out.old }
{
    let Some(k) = position_bits(group) else {
        return Err(Refusal::Record);
    };
    if counts.len() / 2 != MAP_COUNTS {
        return Err(Refusal::Record);
    }
    write_sized(k, counts, out)
}

// The same of a map's counts, k the bits of a position. The map is made in memory of its own, so that one that has no room in
// `out` leaves no trace there, and is not measured first.
// Not put in line: where the compiler sees which two numbers k is, it makes shifts of products with its powers.
#[inline(never)]
fn write_sized(k: u32, counts: &[u8], out: &mut [u8]) -> Result<u32, Refusal>
    requires le_k { 2 ≤ k }
    requires k_bound { k ≤ 4 }
    requires counts_len { length counts.now / 2 ≡ 16384 }
    ensures { outcome (as_answer result) out.new ≡ wrote_or_full (length (map_bytes k (halves_of counts.now)))
        (map_bytes k (halves_of counts.now)) out.old }
{
    let mut own = [0u8; MAX_MAP_BYTES];
    let bits = put_map(&mut own, k, counts);
    let n = (bits + 7) / 8;
    if out.len() < n as usize {
        return Err(Refusal::Room);
    }
    copy(&own, n as usize, out);
    Ok(n)
}

// The groups one after the other, to MAX_MAP_BYTES. The answer is the count of the map's bits.
fn put_map(out: &mut [u8], k: u32, counts: &[u8]) -> u32
    requires le_k { 2 ≤ k }
    requires k_bound { k ≤ 4 }
    requires counts_len { length counts.now / 2 ≡ 16384 }
    requires out_len { length out.old ≡ 46592 }
    ensures { MapPut k (halves_of counts.now) out.new result }
{
    // w      holds the first i groups
    let mut w = start();
    for i in 0..power(14 - k) as usize {
        w = put_part(out, w, k, counts, i);
    }
    finish(out, w);
    total(w)
}

// Group i.
fn put_part(out: &mut [u8], w: MsbWriter, k: u32, counts: &[u8], i: usize) -> MsbWriter
    requires k_bound { k ≤ 4 }
    requires counts_len { length counts.now / 2 ≡ 16384 }
    requires i_bound { i < map_groups k }
    requires room { Room out.old w (group_bits k (group_at k i (halves_of counts.now))) }
    ensures { Puts out.old w (group_bits k (group_at k i (halves_of counts.now))) out.new result }
{
    let bytes = 2 * power(k) as usize;
    let at = bytes * i;
    put_group(out, w, k, &counts[at..at + bytes])
}
