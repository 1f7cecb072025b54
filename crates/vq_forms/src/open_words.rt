//! The words of a line beside the places of its form, one by one.
ghost use Rattle.std.specs.Prelude.{◌≡◌, ◌<◌, ◌++◌, [], length, IfSome, MatchOption};
ghost use Rattle.vq_model.specs.Meaning.{open_places};
ghost use Rattle.vq_forms.specs.OpenWords.{opened};
ghost use Rattle.vq_forms.specs.Table.{place_of, places_of};
ghost use Rattle.vq_lexer.specs.Words.{texts};

use crate::table::{Token, are_pairs};

/// Places with the words there, which may be more than the places where these end with pairs.
#[derive(Clone, Copy)]
pub struct PlacedWords<'a> {
    pub places: &'a [Token],
    pub words: &'a [&'a [u8]],
}

/// The first place with its word, and what is behind them.
#[tactic(auto, using(crate::proofs::Opened::one_left, crate::proofs::Opened::pair, crate::proofs::Opened::none, crate::proofs::Opened::rest))]
pub fn next_placed<'a>(left: PlacedWords<'a>) -> Option<(Token, &'a [u8], PlacedWords<'a>)>
    ensures first { MatchOption result (open_places (places_of left.entry.places.now) (texts left.entry.words.now) ≡ [])
        (λ x. open_places (places_of left.entry.places.now) (texts left.entry.words.now) ≡ opened (place_of x.0) x.1.now
        ++ open_places (places_of x.2.places.now) (texts x.2.words.now)) }
    ensures fewer { IfSome result (λ x. length x.2.words.now < length left.entry.words.now) }
{
    let [place, places @ ..] = left.places else {
        return None;
    };
    let [word, words @ ..] = left.words else {
        return None;
    };
    if !are_pairs(left.places) {
        return Some((*place, word, PlacedWords { places, words }));
    }
    if words.is_empty() {
        return None;
    }
    let places = &[Token::Number, Token::PairTokens];
    Some((Token::TimelineToken, word, PlacedWords { places, words }))
}
