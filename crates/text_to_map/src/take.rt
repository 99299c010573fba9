// The counts of a text from an input.
ghost use Rattle.std.specs.Prelude.{◌≡◌, IfOk, OnErr, take};
ghost use Rattle.text_to_map.specs.Made.{BlockTaken, TextUnderway};

use command::input::Input;
use command::program::Unread;
use map_text::counts::{Taken, begin, take_block};

// block    a part of the text
// counts   the counts that are kept
// What the text has come to. No contract can say that reading moves the input's next bytes, fewer than asked only at its end: only
// that is left to tests. The blocks before stand in no memory any more: `TextUnderway` says that there are such. No run uses up so
// many blocks.
pub fn take_text(
    input: &Input,
    block: &mut [u8; 65536],
    counts: &mut [u8; 32770],
) -> Result<Taken, Unread>
    ensures { IfOk result (λ taken. TextUnderway taken counts.new) }
{
    let mut taken = begin();
    for _ in 0..u64::MAX {
        let turn = take_turn(input, block, counts, taken)?;
        taken = turn.taken;
        if turn.count == 0 {
            return Ok(taken);
        }
    }
    Err(Unread { count: 0 })
}

// count   the bytes that were read, none at the text's end
// taken   what the text has come to with them
#[derive(Clone, Copy)]
pub struct TextTurn {
    pub count: usize,
    pub taken: Taken,
}

// A part of the text is read and taken, all of it.
fn take_turn(
    input: &Input,
    block: &mut [u8; 65536],
    counts: &mut [u8; 32770],
    taken: Taken,
) -> Result<TextTurn, Unread>
    ensures ok { IfOk result (λ turn. BlockTaken taken counts.old (take turn.count block.new) turn.taken counts.new) }
    ensures err { OnErr result (counts.new ≡ counts.old) }
{
    let count = input.fill(block)?;
    let next = take_block(&block[..count], counts, taken);
    Ok(TextTurn { count, taken: next })
}
