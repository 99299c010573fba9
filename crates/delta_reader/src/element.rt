// The elements of an array, whatever their width: the one place where the widths differ. A number is kept in offset binary,
// 2147483648 more than itself, so that it is never negative.
ghost use Rattle.std.specs.Prelude.{◌≡◌, ◌<◌, length, get_or, pos, IfOk};
ghost use Rattle.answer.specs.Refusal.{result_number};
ghost use Rattle.delta_format.specs.Numbers.{elements_of};
ghost use Rattle.delta_format.specs.Calls.{width_number};
ghost use Rattle.delta_reader.specs.Offset.{Offset};

use answer::refusal::Refusal;
use bitstream::byte::byte_at;
use bitstream::number::{read_u16, read_u32};

// The bytes, the bits of an element, and how many whole elements the bytes hold.
#[derive(Clone, Copy)]
pub struct Elements<'a> {
    pub bytes: &'a [u8],
    pub bits: u32,
    pub whole: u64,
    ghost width: { width_number bits ≡ 0 },
    ghost counted: { whole ≡ length (elements_of bits bytes.now) },
}

impl<'a> Elements<'a> {
    // 14 for a width that is not read.
    pub fn new(bytes: &'a [u8], bits: u32) -> Result<Elements<'a>, Refusal>
        ensures number { result_number result ≡ width_number bits }
        ensures bits { IfOk result (λ e. e.bits ≡ bits) }
        ensures bytes { IfOk result (λ e. e.bytes.now ≡ bytes.now) }
    {
        judge_width(bits)?;
        Ok(Elements::with_width(bytes, bits))
    }

    // Of a width that is read. The elements are counted here, once: a division for each element is slow.
    pub fn with_width(bytes: &'a [u8], bits: u32) -> Elements<'a>
        requires { width_number bits ≡ 0 }
        ensures bits { result.bits ≡ bits }
        ensures bytes { result.bytes.now ≡ bytes.now }
    {
        let whole = bytes.len() as u64 / (bits / 8) as u64;
        Elements { bytes, bits, whole }
    }

    // How many they are.
    pub fn count(self) -> u64
        ensures { result ≡ length (elements_of self.entry.bits self.entry.bytes.now) }
    {
        self.whole
    }

    // Element i, in offset binary.
    pub fn at(self, i: u64) -> u64
        requires { i < length (elements_of self.bits self.bytes.now) }
        ensures { Offset self.entry.bits (get_or (elements_of self.entry.bits self.entry.bytes.now) i (pos 0)) result }
    {
        let at = i as usize;
        if self.bits == 8 {
            return (byte_at(self.bytes, at) as u64 + 128) % 256 + 2147483520;
        }
        if self.bits == 16 {
            return (read_u16(self.bytes, 2 * at) as u64 + 32768) % 65536 + 2147450880;
        }
        (read_u32(self.bytes, 4 * at) as u64 + 2147483648) % 4294967296
    }
}

// By halves: of three equal tests in a row the compiler makes a bit test, a shift by the width (docs/DECISIONS.md, 153).
fn judge_width(bits: u32) -> Result<(), Refusal>
    ensures { result_number result ≡ width_number bits }
{
    if bits < 16 {
        return if bits == 8 {
            Ok(())
        } else {
            Err(Refusal::Record)
        };
    }
    if bits < 32 {
        return if bits == 16 {
            Ok(())
        } else {
            Err(Refusal::Record)
        };
    }
    if bits == 32 {
        Ok(())
    } else {
        Err(Refusal::Record)
    }
}
