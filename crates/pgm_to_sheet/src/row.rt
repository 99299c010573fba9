// The bytes of a row.
ghost use Rattle.std.specs.Prelude.{◌≡◌, ◌≤◌, min, IfOk, IfErr, length, take, drop};
ghost use Rattle.pgm_to_sheet.specs.Picture.{SpanHeld};

use bitstream::copy::copy;
use command::input::Input;
use command::program::Unread;

// A row of so many bytes: what the front has of it, and what is read.
pub fn fill_row(
    input: &Input,
    front: &[u8],
    place: usize,
    span: usize,
    row: &mut [u8],
) -> Result<usize, Unread>
    requires { span ≤ length row.old }
    ensures within { IfOk result (λ count. count ≤ span) }
    ensures held { IfOk result (λ count. SpanHeld (drop place front.now) (take count row.new) span) }
    ensures within_unread { IfErr result (λ unread. unread.count ≤ span) }
    ensures held_unread { IfErr result (λ unread. SpanHeld (drop place front.now) (take unread.count row.new) span) }
{
    let n = copy_rest(front, place, span, row);
    match input.fill(&mut row[n..span]) {
        Ok(more) => Ok(n + more),
        Err(unread) => Err(Unread {
            count: n + unread.count,
        }),
    }
}

// Copies what the front has from a place on, at most so many bytes.
fn copy_rest(front: &[u8], place: usize, span: usize, row: &mut [u8]) -> usize
    requires { span ≤ length row.old }
    ensures count { result ≡ min span (length (drop place front.now)) }
    ensures bytes { take result row.new ≡ take result (drop place front.now) }
{
    if front.len() <= place {
        return 0;
    }
    let n = span.min(front.len() - place);
    copy(&front[place..], n, row);
    n
}
