// A header's bytes from an input.
ghost use Rattle.std.specs.Prelude.{◌≡◌, ◌≤◌, IfOk, IfErr, take};
ghost use Rattle.fits_format.specs.Header.{header_cards, stands};
ghost use Rattle.fits_to_sheet.specs.Scan.{HeaderHeld};

use command::input::Input;
use command::program::Unread;
use fits_format::BLOCK_BYTES;
use fits_reader::{count_cards, find_end};

// Block after block to the one that has END, but at most ten: enough to judge the header, whatever stands there, and no more
// (fits_format, `header_span-same`). Fewer bytes come only at the input's end.
pub fn fill_header(input: &Input, bytes: &mut [u8; 28800]) -> Result<usize, Unread>
    ensures within { IfOk result (λ count. count ≤ 28800) }
    ensures held { IfOk result (λ count. HeaderHeld (take count bytes.new)) }
    ensures within_unread { IfErr result (λ unread. unread.count ≤ 28800) }
    ensures held_unread { IfErr result (λ unread. HeaderHeld (take unread.count bytes.new)) }
{
    for blocks in 0..10 {
        let start = BLOCK_BYTES * blocks;
        let end = start + BLOCK_BYTES;
        match input.fill(&mut bytes[start..end]) {
            Ok(count) => {
                if count < BLOCK_BYTES {
                    return Ok(start + count);
                }
            }
            Err(unread) => {
                return Err(Unread {
                    count: start + unread.count,
                });
            }
        }
        if has_end(&bytes[..end]) {
            return Ok(end);
        }
    }
    Ok(28800)
}

// Whether END stands on one of the cards.
fn has_end(fits: &[u8]) -> bool
    ensures { result ≡ stands "END     " (header_cards fits.now) }
{
    find_end(fits) < count_cards(fits)
}
