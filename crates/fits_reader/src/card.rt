// One card: the keyword, the value indicator and the value field of its eighty bytes. Columns 31 to 80 are not looked at. A
// keyword is given with its blanks.
ghost use Rattle.std.specs.Prelude.{◌≡◌};
ghost use Rattle.fits_format.specs.Card.{has_keyword, has_value, is_true, integer_of};
ghost use Rattle.fits_reader.specs.Clipped.{clipped};

use crate::integer::fixed_integer;
use fits_format::CARD_BYTES;

#[tactic(auto, unfolding(fits_format::specs::Card::has_keyword), using(text::specs::Same::Laws::same_pointwise))]
pub fn has_keyword(card: &[u8; CARD_BYTES], keyword: &[u8]) -> bool
    ensures { result ≡ has_keyword keyword.now card.now }
{
    &card[..8] == keyword
}

#[tactic(auto, unfolding(fits_format::specs::Card::has_value), using(text::specs::Same::Laws::same_pointwise))]
fn has_value(card: &[u8; CARD_BYTES], keyword: &[u8]) -> bool
    ensures { result ≡ has_value keyword.now card.now }
{
    has_keyword(card, keyword) && &card[8..10] == b"= ".as_slice()
}

// Whether it has the keyword and says T.
#[tactic(auto, unfolding(fits_format::specs::Card::is_true), using(text::specs::Same::Laws::same_pointwise))]
pub fn is_true(card: &[u8; CARD_BYTES], keyword: &[u8]) -> bool
    ensures { result ≡ is_true keyword.now card.now }
{
    has_value(card, keyword) && &card[10..30] == b"                   T".as_slice()
}

// Its integer, as `fixed_integer` gives it; 0 where it has another keyword.
#[tactic(auto, unfolding(fits_format::specs::Card::integer_of))]
pub fn card_integer(card: &[u8; CARD_BYTES], keyword: &[u8]) -> u32
    ensures { result ≡ clipped (integer_of keyword.now card.now) }
{
    if has_value(card, keyword) {
        fixed_integer(&card[10..30])
    } else {
        0
    }
}
