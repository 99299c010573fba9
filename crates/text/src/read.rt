// Numbers from their digits.
ghost use Rattle.std.specs.Prelude.{◌≡◌, true};
ghost use Rattle.text.specs.Number.{is_digit, with_digit, number_with, number_from, number_in};

#[tactic(auto, unfolding(crate::specs::Number::is_digit))]
pub fn is_digit(b: u8) -> bool
    ensures { result ≡ is_digit b }
{
    b.is_ascii_digit()
}

// The number v with one digit more; none where that is above `most`.
pub fn with_digit(most: u64, v: u64, b: u8) -> Option<u64>
    requires { is_digit b ≡ true }
    ensures { result ≡ with_digit most v b }
{
    let d = (b - 48) as u64;
    if most < d {
        return None;
    }
    // no sum is made that could run over
    if (most - d) / 10 < v {
        return None;
    }
    Some(v * 10 + d)
}

// What was read with one byte more.
#[tactic(auto, unfolding(crate::specs::Number::number_with))]
fn number_with(most: u64, read: Option<u64>, b: u8) -> Option<u64>
    ensures { result ≡ number_with most read b }
{
    let v = read?;
    if is_digit(b) {
        with_digit(most, v, b)
    } else {
        None
    }
}

// What was read with some bytes more.
#[tactic(auto, unfolding(crate::specs::Number::number_from))]
fn number_from(most: u64, read: Option<u64>, bytes: &[u8]) -> Option<u64>
    ensures { result ≡ number_from most read bytes.now }
{
    bytes
        .iter()
        .fold(read, |read, b| number_with(most, read, *b))
}

// A number of at most `most`, in digits and nothing else.
#[tactic(auto, unfolding(crate::specs::Number::number_in))]
pub fn read_decimal(bytes: &[u8], most: u64) -> Option<u64>
    ensures { result ≡ number_in most bytes.now }
{
    if bytes.is_empty() {
        return None;
    }
    number_from(most, Some(0), bytes)
}
