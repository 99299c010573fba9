// A writer of bit strings, one after the other, through a register that stores whole words.
ghost use Rattle.std.specs.Prelude.{◌≡◌, ◌+◌, ◌*◌, ◌^◌, ◌<◌};
ghost use Rattle.bitstream.specs.Writer.{Ready, FieldPut, Closable, Finished};

use crate::shift::above;

// words   whole words stored so far
// count   bits in the register, below 32 between calls
// acc     the register, its bits from the lowest on
#[derive(Clone, Copy)]
pub struct Writer {
    pub words: usize,
    pub count: u32,
    pub acc: u64,
}

pub fn start() -> Writer
    ensures { result ≡ record { words = 0; count = 0; acc = 0 } }
{
    Writer {
        words: 0,
        count: 0,
        acc: 0,
    }
}

// Appends the n bits of v.
pub fn put(out: &mut [u8], w: Writer, v: u64, n: u32) -> Writer
    requires ready { Ready out.old w n }
    requires v_bound { v < 2 ^ n }
    ensures { FieldPut out.old w v n out.new result }
{
    let words = w.words;
    let count = w.count + n;
    let acc = above(v, w.count, w.acc);
    if count < 32 {
        return Writer { words, count, acc };
    }
    crate::number::put_u32(out, 4 * words, (acc % 4294967296) as u32);
    Writer {
        words: words + 1,
        count: count - 32,
        acc: acc / 4294967296,
    }
}

// How many bits were put.
pub fn total(w: Writer) -> u32
    requires { 32 * w.words + w.count < 4294967296 }
    ensures { result ≡ 32 * w.words + w.count }
{
    32 * w.words as u32 + w.count
}

// Stores what the register still holds, with zeros above it. The answer is the count of words.
pub fn finish(out: &mut [u8], w: Writer) -> usize
    requires { Closable out.old w }
    ensures { Finished out.old w out.new result }
{
    let words = w.words;
    let count = w.count;
    let acc = w.acc;
    if count == 0 {
        return words;
    }
    crate::number::put_u32(out, 4 * words, (acc % 4294967296) as u32);
    words + 1
}
