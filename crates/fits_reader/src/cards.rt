// The cards of a header, counted from 0.
ghost use Rattle.std.specs.Prelude.{◌≡◌, ◌<◌, ⊤, MatchOption, length, unwrap_or};
ghost use Rattle.row_format.specs.Lists.{any};
ghost use Rattle.fits_format.specs.Card.{has_keyword};
ghost use Rattle.fits_format.specs.Header.{header_cards, before_end, end_card};

use crate::card::has_keyword;
use fits_format::{CARD_BYTES, MAX_CARDS};

// The whole cards, of at most ten blocks.
pub fn header_cards(fits: &[u8]) -> &[[u8; CARD_BYTES]]
    ensures { result.now ≡ header_cards fits.now }
{
    let (cards, _) = fits.as_chunks::<CARD_BYTES>();
    &cards[..cards.len().min(MAX_CARDS)]
}

// How many there are.
pub fn count_cards(fits: &[u8]) -> usize
    ensures { result ≡ length (header_cards fits.now) }
{
    header_cards(fits).len()
}

// The place of END's card, or the count of the cards where there is none, as `end_card` has it; `end_place` is the same as an Option.
#[tactic(auto, unfolding(fits_format::specs::Header::end_card))]
pub fn find_end(fits: &[u8]) -> usize
    ensures { result ≡ end_card fits.now }
{
    let cards = header_cards(fits);
    end_place(cards).unwrap_or(cards.len())
}

// The place of END's card among some cards.
pub fn end_place(cards: &[[u8; CARD_BYTES]]) -> Option<usize>
    ensures place { length (before_end cards.now) ≡ unwrap_or result (length cards.now) }
    ensures within { MatchOption result ⊤ (λ i. i < length cards.now) }
{
    cards.iter().position(|card| has_keyword(card, b"END     "))
}

// Whether the keyword stands on one of some cards.
pub fn stands(cards: &[[u8; CARD_BYTES]], keyword: &[u8]) -> bool
    ensures { result ≡ any (has_keyword keyword.now) cards.now }
{
    cards.iter().any(|card| has_keyword(card, keyword))
}
