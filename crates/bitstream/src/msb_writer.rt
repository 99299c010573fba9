// A writer of bit strings, one after the other, the most significant bit of each byte first, through a register that stores
// four bytes at a time.
ghost use Rattle.std.specs.Prelude.{◌≡◌, ◌+◌, ◌*◌, ◌^◌, ◌≤◌, ◌<◌, length};
ghost use Rattle.bitstream.specs.Memory.{overwritten};
ghost use Rattle.bitstream.specs.Msb.{msb_digits, msb_bytes_of};
ghost use Rattle.bitstream.specs.MsbWriter.{MsbReady, MsbPut, MsbClosable, MsbFinished};

use crate::shift::{above, low_bits, window};

// words   four bytes each, stored so far
// count   bits in the register, below 32 between calls
// acc     the register, its last bit the lowest
#[derive(Clone, Copy)]
pub struct MsbWriter {
    pub words: usize,
    pub count: u32,
    pub acc: u64,
}

pub fn start() -> MsbWriter
    ensures { result ≡ record { words = 0; count = 0; acc = 0 } }
{
    MsbWriter {
        words: 0,
        count: 0,
        acc: 0,
    }
}

// Appends the n bits of v.
pub fn put(out: &mut [u8], w: MsbWriter, v: u64, n: u32) -> MsbWriter
    requires msb_ready { MsbReady out.old w n }
    requires v_bound { v < 2 ^ n }
    ensures { MsbPut out.old w v n out.new result }
{
    let words = w.words;
    let count = w.count + n;
    let acc = above(w.acc, n, v);
    if count < 32 {
        return MsbWriter { words, count, acc };
    }
    // The first 32 of the register's bits are stored, and those after them kept.
    let kept = count - 32;
    put_four(out, 4 * words, window(acc, kept));
    MsbWriter {
        words: words + 1,
        count: kept,
        acc: low_bits((acc % 4294967296) as u32, kept) as u64,
    }
}

// How many bits were put.
pub fn total(w: MsbWriter) -> u32
    requires { 32 * w.words + w.count < 4294967296 }
    ensures { result ≡ 32 * w.words + w.count }
{
    32 * w.words as u32 + w.count
}

// Stores what the register still holds, with zeros after it to a whole four bytes.
pub fn finish(out: &mut [u8], w: MsbWriter)
    requires { MsbClosable out.old w }
    ensures { MsbFinished out.old w out.new }
{
    let words = w.words;
    let count = w.count;
    let acc = w.acc;
    if count == 0 {
        return;
    }
    let last = above(acc, 32 - count, 0);
    put_four(out, 4 * words, (last % 4294967296) as u32);
}

// Four bytes at a place, the highest first.
fn put_four(s: &mut [u8], at: usize, v: u32)
    requires { at + 4 ≤ length s.old }
    ensures { s.new ≡ overwritten s.old at (msb_bytes_of 4 (msb_digits 32 v)) }
{
    s[at..at + 4].copy_from_slice(&v.to_be_bytes());
}
