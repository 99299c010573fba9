// A byte of a slice as a wider number.
ghost use Rattle.std.specs.Prelude.{◌<◌, length};
ghost use Rattle.bitstream.specs.Memory.{ByteAt};

pub fn byte_at(s: &[u8], at: usize) -> u32
    requires { at < length s.now }
    ensures { ByteAt s.now at result }
{
    s[at] as u32
}

// The same, 0 past the end.
pub fn byte_or_zero(s: &[u8], at: usize) -> u64
    ensures { ByteAt s.now at result }
{
    if at < s.len() { s[at] as u64 } else { 0 }
}
