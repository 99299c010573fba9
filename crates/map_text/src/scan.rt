// Text byte by byte: counts, what stands between them, and the line that ends them.
ghost use Rattle.std.specs.Prelude.{◌≡◌};
ghost use Rattle.text.specs.Number.{AtMost};
ghost use Rattle.map_text.specs.Scan.{is_gap, is_space, scan_of, with_byte, with_letter, with_first, stepped, is_text};

use text::read::{is_digit, with_digit};

// Where a text has come to.
// Line         the start of a line
// Gap          elsewhere between counts
// Count        a count with its digits so far
// D, Do, Don   the start of a line, and so much of `done`
// Ended        past `done` at the start of a line: what follows is not looked at
// Fault        past what is no text of counts; it stays, as Ended does. A Result of the other states would be taken apart at each byte
#[derive(Clone, Copy)]
pub enum Scan {
    Line,
    Gap,
    Count(u32),
    D,
    Do,
    Don,
    Ended,
    Fault,
}

// One byte on.
#[tactic(auto, unfolding(crate::specs::Scan::stepped))]
pub fn step(scan: Scan, b: u8) -> Scan
    ensures { result ≡ stepped scan b }
{
    match scan {
        Scan::Line => with_first(b),
        Scan::Gap => with_byte(0, b),
        Scan::Count(v) => with_byte(v, b),
        Scan::D => with_letter(b, b'o', Scan::Do),
        Scan::Do => with_letter(b, b'n', Scan::Don),
        Scan::Don => with_letter(b, b'e', Scan::Ended),
        Scan::Ended => Scan::Ended,
        Scan::Fault => Scan::Fault,
    }
}

// A byte at the start of a line.
#[tactic(auto, unfolding(crate::specs::Scan::with_first))]
fn with_first(b: u8) -> Scan
    ensures { result ≡ with_first b }
{
    if b == b'd' { Scan::D } else { with_byte(0, b) }
}

// A byte after the digits of v.
fn with_byte(v: u32, b: u8) -> Scan
    ensures { result ≡ with_byte v b }
{
    if is_digit(b) {
        return scan_of(with_digit(65535, v as u64, b));
    }
    if b == b'\n' {
        return Scan::Line;
    }
    if is_gap(b) {
        return Scan::Gap;
    }
    Scan::Fault
}

fn scan_of(read: Option<u64>) -> Scan
    requires { AtMost 65535 read }
    ensures { result ≡ scan_of read }
{
    match read {
        Some(v) => Scan::Count(v as u32),
        None => Scan::Fault,
    }
}

// The byte that goes on with `done`, or none.
#[tactic(auto, unfolding(crate::specs::Scan::with_letter))]
fn with_letter(b: u8, letter: u8, next: Scan) -> Scan
    ensures { result ≡ with_letter b letter next }
{
    if b == letter { next } else { Scan::Fault }
}

#[tactic(auto, unfolding(crate::specs::Scan::is_gap))]
fn is_gap(b: u8) -> bool
    ensures { result ≡ is_gap b }
{
    b == b' ' || b == b'\t' || b == b'\r'
}

// Whether a byte ends a count.
#[tactic(auto, unfolding(crate::specs::Scan::is_space))]
pub fn is_space(b: u8) -> bool
    ensures { result ≡ is_space b }
{
    b == b'\n' || is_gap(b)
}

// Whether a text may end here.
#[tactic(auto, unfolding(crate::specs::Scan::is_text))]
pub fn is_text(scan: Scan) -> bool
    ensures { result ≡ is_text scan }
{
    match scan {
        Scan::Line | Scan::Gap | Scan::Count(_) | Scan::Ended => true,
        Scan::D | Scan::Do | Scan::Don | Scan::Fault => false,
    }
}
