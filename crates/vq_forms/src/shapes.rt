//! The shapes of single words: whether each is what may stand at its place.
ghost use Rattle.std.specs.Prelude.{◌≡◌};
ghost use Rattle.std.specs.List.{list_all};
ghost use Rattle.vq_model.specs.Meaning.{is_actor};
ghost use Rattle.vq_model.specs.LineFaults.{is_shaped, is_numeric};
ghost use Rattle.vq_forms.specs.Table.{place_of};
ghost use Rattle.vq_forms.specs.OpenWords.{opens};

use crate::open_words::{PlacedWords, next_placed};
use crate::table::{Token, places};
use vq_lexer::{is_hex, is_name, numeral, small_numeral};
use vq_model::statement::LineForm;

/// Whether a word is an actor of the schedule: `host`, or a name after `S:` or `R:`.
fn is_actor(word: &[u8]) -> bool
    ensures { result ≡ is_actor word.now }
{
    match word {
        [b'S', b':', name @ ..] => is_name(name),
        [b'R', b':', name @ ..] => is_name(name),
        _ => word == b"host".as_slice(),
    }
}

/// Whether a word has the shape of its place.
fn is_shaped(place: Token, word: &[u8]) -> bool
    ensures { result ≡ is_shaped (place_of place, word.now) }
{
    match place {
        Token::Name => is_name(word),
        Token::BufferToken => is_name(word),
        Token::TimelineToken => is_name(word),
        Token::BinaryToken => is_name(word),
        Token::FenceToken => is_name(word),
        Token::QueueToken => is_name(word),
        Token::ActorToken => is_actor(word),
        _ => true,
    }
}

/// Whether each word of a line of a form has the shape of its place.
#[tactic(auto, using(crate::proofs::Opened::passes))]
pub fn are_shaped(form: LineForm, words: &[&[u8]]) -> bool
    ensures { result ≡ list_all is_shaped (opens form words.now) }
{
    let mut left = PlacedWords {
        places: places(form),
        words,
    };
    while let Some((place, word, after)) = next_placed(left) {
        if !is_shaped(place, word) {
            return false;
        }
        left = after;
    }
    true
}

/// Whether a numeral's place holds a numeral.
fn is_numeric(place: Token, word: &[u8]) -> bool
    ensures { result ≡ is_numeric (place_of place, word.now) }
{
    match place {
        Token::Number => numeral(word).is_some(),
        Token::SmallNumber => small_numeral(word).is_some(),
        Token::Digits => is_hex(word),
        _ => true,
    }
}

/// Whether each numeral's place of a form holds a numeral.
#[tactic(auto, using(crate::proofs::Opened::passes))]
pub fn are_numeric(form: LineForm, words: &[&[u8]]) -> bool
    ensures { result ≡ list_all is_numeric (opens form words.now) }
{
    let mut left = PlacedWords {
        places: places(form),
        words,
    };
    while let Some((place, word, after)) = next_placed(left) {
        if !is_numeric(place, word) {
            return false;
        }
        left = after;
    }
    true
}
