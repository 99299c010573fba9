// Numbers in decimal. A u64 has at most 20 digits.
ghost use Rattle.std.specs.Prelude.{◌≡◌, ◌+◌, ◌≤◌, length, nat_abs};
ghost use Rattle.text.specs.Text.{decimal, integer, field, fields};
ghost use Rattle.text.specs.Put.{Put};

use crate::put::put_bytes;

// The digits before the last one, then the last.
pub fn put_decimal(out: &mut [u8], at: usize, n: u64) -> usize
    requires { at + 20 ≤ length out.old }
    ensures put { Put out.old at (decimal n) result out.new }
    ensures most { result ≤ at + 20 }
{
    let last = 48 + (n % 10) as u8;
    if n < 10 {
        out[at] = last;
        return at + 1;
    }
    let next = put_decimal(out, at, n / 10);
    out[next] = last;
    next + 1
}

// With a minus sign where it is below 0, and no plus sign.
pub fn put_integer(out: &mut [u8], at: usize, v: i32) -> usize
    requires { at + 21 ≤ length out.old }
    ensures put { Put out.old at (integer v) result out.new }
    ensures most { result ≤ at + 21 }
{
    let size = v.unsigned_abs() as u64;
    if v < 0 {
        out[at] = b'-';
        return put_decimal(out, at + 1, size);
    }
    put_decimal(out, at, size)
}

// Some words and a number.
pub fn put_field(out: &mut [u8], at: usize, words: &[u8], n: u64) -> usize
    requires { at + length words.now + 20 ≤ length out.old }
    ensures put { Put out.old at (field words.now n) result out.new }
    ensures most { result ≤ at + length words.now + 20 }
{
    let next = put_bytes(out, at, words);
    put_decimal(out, next, n)
}

// The same, and once more.
pub fn put_fields(out: &mut [u8], at: usize, words: &[u8], n: u64, more: &[u8], k: u64) -> usize
    requires { at + length words.now + length more.now + 40 ≤ length out.old }
    ensures put { Put out.old at (fields words.now n more.now k) result out.new }
    ensures most { result ≤ at + length words.now + length more.now + 40 }
{
    let next = put_field(out, at, words, n);
    put_field(out, next, more, k)
}
