// One number of a line: given as four little-endian bytes in two's complement, written as a signed adaptive number.
ghost use Rattle.std.specs.Prelude.{◌≡◌, ◌/◌, ◌<◌, pos, length, get_or};
ghost use Rattle.adaptive.specs.Number.{signed_type, shortest};
ghost use Rattle.sheet_format.specs.Kind.ContourLine.{given_numbers};

use adaptive::write_signed;
use bitstream::number::read_u32;
use sheet_format::word::signed_of;

// Number i of the content.
pub fn number_at(content: &[u8], i: usize) -> i32
    requires { i < length content.now / 4 }
    ensures { result ≡ get_or (given_numbers content.now) i (pos 0) }
{
    signed_of(read_u32(content, 4 * i))
}

// The bytes that a number takes in a record, found by writing it: none takes more than five.
pub fn number_bytes(value: i32) -> usize
    ensures { result ≡ length (shortest signed_type value) }
{
    let mut scratch = [0u8; 5];
    let put = write_signed(value, &mut scratch);
    put.count as usize
}
