// The numbers of a line, one after another: two passes, since a refusal leaves the lent memory as it was.
ghost use Rattle.std.specs.Prelude.{◌≡◌, ◌++◌, ◌*◌, ◌≤◌, length, drop, IfOk};
ghost use Rattle.answer.specs.Refusal.{result_number};
ghost use Rattle.sheet_format.specs.Line.{read_line};
ghost use Rattle.sheet_format.specs.Kind.ContourLine.{fault_number, bytes_of_line, number_bytes};

use adaptive::{read_signed, signed_number};
use answer::refusal::Refusal;
use bitstream::number::put_u32;
use sheet_format::word::word_of;

// The bytes of the numbers; 12 or 13 at the earliest number that is faulty.
pub fn judge_numbers(line: &[u8], count: usize) -> Result<usize, Refusal>
    ensures number { result_number result ≡ fault_number (read_line count line.now) }
    ensures used { IfOk result (λ used. used ≡ bytes_of_line (read_line count line.now)) }
{
    // i numbers are read, and the next one begins at byte `at`
    let mut at = 0;
    for _ in 0..count {
        let read = signed_number(&line[at..])?;
        at += read.used as usize;
    }
    Ok(at)
}

// The numbers of a line that was judged to the front of `content`, four bytes each; nothing where less than the room is
// lent.
pub fn keep_numbers(line: &[u8], count: usize, room: usize, content: &mut [u8])
    requires line_value { fault_number (read_line count line.now) ≡ 0 }
    requires count_bound { 4 * count ≤ room }
    ensures { room ≤ length content.old → content.new
        ≡ number_bytes (read_line count line.now) ++ drop (4 * count) content.old }
{
    if content.len() < room {
        return;
    }
    let mut at = 0;
    for i in 0..count {
        // no number of the line is refused
        let read = read_signed(&line[at..]);
        put_u32(content, 4 * i, word_of(read.value));
        at += read.used as usize;
    }
}
