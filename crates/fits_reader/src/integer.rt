// A fixed-format integer. What a header is judged by is its value up to MOST: 0 where it is below 1 or where there is no integer,
// which are refused alike, and 4097 for every value above 4096, of however many digits.
ghost use Rattle.std.specs.Prelude.{◌≡◌, ◌≤◌};
ghost use Rattle.fits_format.specs.Card.{fixed_integer};
ghost use Rattle.fits_reader.specs.Clipped.{clipped, digits_clipped, NotBlank};

use text::read::is_digit;

const MOST: u32 = 4097;

// Of a value field: blanks, an optional sign, digits.
pub fn fixed_integer(field: &[u8]) -> u32
    ensures { result ≡ clipped (fixed_integer field.now) }
{
    for (i, b) in field.iter().enumerate() {
        if *b != b' ' {
            return signed_digits(&field[i..]);
        }
    }
    0
}

// The same of what follows the blanks. A minus sign is no digit: what is below 1 gives 0, as what is no integer does.
fn signed_digits(field: &[u8]) -> u32
    requires { NotBlank field.now }
    ensures { result ≡ clipped (fixed_integer field.now) }
{
    if field[0] == b'+' {
        return unsigned_digits(&field[1..], MOST);
    }
    unsigned_digits(field, MOST)
}

// Of digits and nothing else, however many: their number up to `most`. `value` is what is kept of those before `b`.
pub fn unsigned_digits(field: &[u8], most: u32) -> u32
    requires { most ≤ 65537 }
    ensures { result ≡ digits_clipped most 0 field.now }
{
    let mut value: u32 = 0;
    for b in field {
        if !is_digit(*b) {
            return 0;
        }
        value = (value * 10 + (*b - b'0') as u32).min(most);
    }
    value
}
