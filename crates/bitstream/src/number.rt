// Little-endian numbers of 16 and 32 bits at a place in a byte slice.
ghost use Rattle.std.specs.Prelude.{◌≡◌, ◌+◌, ◌≤◌, length, take, drop};
ghost use Rattle.bitstream.specs.Bits.{number_of, digits, bytes_of};
ghost use Rattle.bitstream.specs.Memory.{overwritten};

pub fn read_u16(s: &[u8], at: usize) -> u32
    requires { at + 2 ≤ length s.now }
    ensures { result ≡ number_of (take 2 (drop at s.now)) }
{
    u16::from_le_bytes([s[at], s[at + 1]]) as u32
}

pub fn read_u32(s: &[u8], at: usize) -> u32
    requires { at + 4 ≤ length s.now }
    ensures { result ≡ number_of (take 4 (drop at s.now)) }
{
    u32::from_le_bytes([s[at], s[at + 1], s[at + 2], s[at + 3]])
}

pub fn put_u16(s: &mut [u8], at: usize, v: u32)
    requires { at + 2 ≤ length s.old }
    ensures { s.new ≡ overwritten s.old at (bytes_of 2 (digits 16 v)) }
{
    s[at..at + 2].copy_from_slice(&((v % 65536) as u16).to_le_bytes());
}

pub fn put_u32(s: &mut [u8], at: usize, v: u32)
    requires { at + 4 ≤ length s.old }
    ensures { s.new ≡ overwritten s.old at (bytes_of 4 (digits 32 v)) }
{
    s[at..at + 4].copy_from_slice(&v.to_le_bytes());
}
