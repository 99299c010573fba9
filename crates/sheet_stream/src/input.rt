// A record's bytes from an input.
ghost use Rattle.std.specs.Prelude.{◌≡◌, List, ℕ, ◌≤◌, IfOk, IfErr, length, take};
ghost use Rattle.sheet_format.specs.Record.{length_field, record_span};
ghost use Rattle.sheet_format.specs.Stream.{held_of};

use bitstream::number::read_u32;
use command::input::Input;
use command::program::Unread;
use sheet_format::MAX_RECORD_BYTES;

// Four bytes, and as many more as they say where a record may have that length: enough to judge it, whatever stands there
// (sheet_format, `record-span`), and no more. Fewer come only at the input's end; none come at the sheet's.
pub fn fill_record(input: &Input, bytes: &mut [u8]) -> Result<usize, Unread>
    requires { 32778 ≤ length bytes.old }
    ensures within { IfOk result (λ count. count ≤ 32778) }
    ensures held { IfOk result (λ count. take count bytes.new ≡ held_of (take count bytes.new)) }
    ensures within_unread { IfErr result (λ unread. unread.count ≤ 32778) }
    ensures held_unread { IfErr result (λ unread. take unread.count bytes.new ≡ held_of (take unread.count bytes.new)) }
{
    let front = input.fill(&mut bytes[..4])?;
    if front < 4 {
        return Ok(front);
    }
    let end = span(read_u32(bytes, 0));
    match input.fill(&mut bytes[4..end]) {
        Ok(rest) => Ok(4 + rest),
        Err(unread) => Err(Unread {
            count: 4 + unread.count,
        }),
    }
}

// The bytes to hold of a record that says it has such a length.
fn span(length: u32) -> usize
    ensures spans { (b : List ℕ) → length_field b ≡ length → record_span b ≡ result }
    ensures within { (4 ≤ result) × (result ≤ 32778) }
{
    let length = length as usize;
    if length < 2 {
        return 4;
    }
    if MAX_RECORD_BYTES - 4 < length {
        return 4;
    }
    4 + length
}
