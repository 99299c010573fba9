// What stands before a number of a header: blanks, and comments from `#` to the end of the line.
ghost use Rattle.std.specs.Prelude.{◌≡◌, false, ◌≤◌, length};
ghost use Rattle.pgm_format.specs.Header.{is_blank, ends_line, separates, comments, gap_bytes};

#[tactic(auto, unfolding(pgm_format::specs::Header::is_blank))]
pub fn is_blank(b: u8) -> bool
    ensures { result ≡ is_blank b }
{
    b == 32 || 9 <= b && b < 14
}

#[tactic(auto, unfolding(pgm_format::specs::Header::ends_line))]
fn ends_line(b: u8) -> bool
    ensures { result ≡ ends_line b }
{
    b == 10 || b == 13
}

// Whether a byte goes on with separators; `comment` says whether a comment is open before it.
#[tactic(auto, unfolding(pgm_format::specs::Header::separates))]
fn separates_at(comment: bool, b: u8) -> bool
    ensures { result ≡ separates comment b }
{
    comment || b == b'#' || is_blank(b)
}

// Whether a comment is open behind a byte.
#[tactic(auto, unfolding(pgm_format::specs::Header::comments))]
fn comments_after(comment: bool, b: u8) -> bool
    ensures { result ≡ comments comment b }
{
    if comment { !ends_line(b) } else { b == b'#' }
}

// How many bytes at the front are separators.
pub fn gap_bytes(s: &[u8]) -> usize
    ensures gap { result ≡ gap_bytes s.now }
    ensures within { result ≤ length s.now }
{
    let mut comment = false;
    for (i, b) in s.iter().enumerate() {
        if !separates_at(comment, *b) {
            return i;
        }
        comment = comments_after(comment, *b);
    }
    s.len()
}
