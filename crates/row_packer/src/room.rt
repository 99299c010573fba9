// The room question: how many words the longest row of n pixels takes.
ghost use Rattle.std.specs.Prelude.{◌≡◌};
ghost use Rattle.answer.specs.Refusal.{as_answer};
ghost use Rattle.row_format.specs.Calls.{room as room_answer};

use answer::Answer;
use answer::refusal::Refusal;
use code_table::check::max_item_bits;
use row_format::MAX_PIXELS;

pub fn room(table: &[u8], n: u64) -> Answer
    ensures { result ≡ room_answer table.now n }
{
    room_words(table, n).into()
}

fn room_words(table: &[u8], n: u64) -> Result<u32, Refusal>
    ensures { as_answer result ≡ room_answer table.now n }
{
    let most = max_item_bits(table)?;
    if MAX_PIXELS < n {
        return Err(Refusal::TooMany);
    }
    Ok((n as u32 * most + 31) / 32)
}
