// The two passes over a line's numbers: how many bytes they take, and then the bytes themselves. A refusal has to leave the
// memory as found, so nothing is written before all are measured.
ghost use Rattle.std.specs.Prelude.{◌≡◌, ◌/◌, ◌≤◌, length};
ghost use Rattle.sheet_format.specs.Line.{line_bytes};
ghost use Rattle.sheet_format.specs.Kind.ContourLine.{given_numbers};
ghost use Rattle.sheet_writer.specs.Numbers.{numbers_written};

use crate::number::{number_at, number_bytes};
use adaptive::write_signed;

pub fn line_bytes(content: &[u8]) -> usize
    requires { length content.now / 4 ≤ 4096 }
    ensures { result ≡ length (line_bytes (given_numbers content.now)) }
{
    let mut bytes: usize = 0;
    for i in 0..content.len() / 4 {
        let value = number_at(content, i);
        bytes += number_bytes(value);
    }
    bytes
}

// To the front of memory that has room for them.
pub fn put_numbers(content: &[u8], out: &mut [u8])
    requires { length (line_bytes (given_numbers content.now)) ≤ length out.old }
    ensures { out.new ≡ numbers_written content.now out.old }
{
    // the bytes of the first i numbers end at `at`
    let mut at: usize = 0;
    for i in 0..content.len() / 4 {
        let value = number_at(content, i);
        let put = write_signed(value, &mut out[at..]);
        at += put.count as usize;
    }
}
