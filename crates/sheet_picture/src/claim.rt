// Where a row would stand that is behind a fault.
ghost use Rattle.std.specs.Prelude.{◌≡◌, ◌≤◌, ◌<◌};
ghost use Rattle.sheet_format.specs.Fields.{two_at};
ghost use Rattle.sheet_format.specs.Record.{length_field};
ghost use Rattle.sheet_picture.specs.Extent.{row_claimed};

use bitstream::byte::byte_or_zero;

#[tactic(auto, unfolding(crate::specs::Extent::row_claimed))]
pub fn row_claimed(bytes: &[u8]) -> u32
    ensures { result ≡ row_claimed bytes.now }
{
    if length_field(bytes) < 4 {
        return 0;
    }
    let kind = two_at(bytes, 4);
    if kind == 2 || kind == 3 {
        return two_at(bytes, 6) + 1;
    }
    0
}

// The four bytes at the front, 0 for those past the end.
fn length_field(bytes: &[u8]) -> u64
    ensures { result ≡ length_field bytes.now }
{
    let b0 = byte_or_zero(bytes, 0);
    let b1 = byte_or_zero(bytes, 1);
    let b2 = byte_or_zero(bytes, 2);
    let b3 = byte_or_zero(bytes, 3);
    ((b3 * 256 + b2) * 256 + b1) * 256 + b0
}

// Two bytes at a place near the front, 0 for those past the end.
fn two_at(bytes: &[u8], at: usize) -> u32
    requires { at ≤ 6 }
    ensures is { result ≡ two_at at bytes.now }
    ensures small { result < 65536 }
{
    let b0 = byte_or_zero(bytes, at);
    let b1 = byte_or_zero(bytes, at + 1);
    (b1 * 256 + b0) as u32
}
