// Lengths and bits of codewords in words, and the parting of words by one bit.
ghost use Rattle.std.specs.Prelude.{◌≡◌, ◌<◌, length};
ghost use Rattle.prefix_free.specs.Branch.{bit_at, Agree, Longer, Shortest, Split};

use bitstream::shift::bit_of;

// The length of the shortest codeword, and 32 where there is no word.
pub fn shortest(s: &[u32]) -> u32
    ensures { Shortest s.now (length s.now) result }
{
    let mut least: u32 = 32;
    // no `min` over the words: its Option costs the check a tenth
    for w in s {
        least = least.min(w % 32);
    }
    least
}

// Bit d of a codeword.
pub fn bit(w: u32, d: u32) -> usize
    requires { d < 32 }
    ensures { result ≡ bit_at d w }
{
    bit_of(w / 32, d) as usize
}

// Brings the words with a 0 at bit d before those with a 1, and returns how many have a 0. Every turn exchanges two words:
// a branch on the bit would be guessed wrong half the time.
pub fn split(s: &mut [u32], d: u32) -> usize
    requires d_bound { d < 32 }
    requires agree { Agree d s.old }
    requires longer { Longer d s.old }
    ensures { Split d s.old s.new result }
{
    // s[..zeros] have a 0 at bit d, s[zeros..i] a 1, and s[i..] are still to come
    let mut zeros: usize = 0;
    for i in 0..s.len() {
        // by hand: the library's `swap` first asks which place is the lower, two branches a turn
        let w = s[i];
        s[i] = s[zeros];
        s[zeros] = w;
        zeros += 1 - bit(w, d);
    }
    zeros
}
