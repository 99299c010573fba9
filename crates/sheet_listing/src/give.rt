// A line into lent memory.
ghost use Rattle.std.specs.Prelude.{◌≡◌, ◌≤◌, length};
ghost use Rattle.answer.specs.Outcome.{outcome};
ghost use Rattle.answer.specs.Refusal.{as_answer};
ghost use Rattle.sheet_listing.specs.Listed.{line_given};

use answer::refusal::Refusal;
use text::put::put_bytes;

// The line at the front of `out`, and its bytes; 5 where it does not fit.
pub fn give(line: &[u8], out: &mut [u8]) -> Result<u32, Refusal>
    requires { length line.now ≤ 128 }
    ensures { outcome (as_answer result) out.new ≡ line_given line.now out.old }
{
    if out.len() < line.len() {
        return Err(Refusal::Room);
    }
    Ok(put_bytes(out, 0, line) as u32)
}
