//! The pairs of a part of a line, one after another, and tests of all of them.
ghost use Rattle.std.specs.Prelude.{◌≡◌, ◌<◌, ◌∷◌, [], MatchOption, length};
ghost use Rattle.std.specs.List.{list_all};
ghost use Rattle.vq_model.specs.Forms.{Numeral, TimelineName};
ghost use Rattle.vq_model.specs.LineFaults.{is_numeric, is_shaped};
ghost use Rattle.vq_model.specs.Meaning.{pair_places};
ghost use Rattle.vq_model.specs.Text.{words_in};

use crate::walk::next_word;
use vq_lexer::{is_name, numeral};

/// The name and the numeral of the first pair of a part, and what follows them.
pub fn next_pair(part: &[u8]) -> Option<(&[u8], &[u8], &[u8])>
    ensures { MatchOption result (pair_places (words_in part.now) ≡ [])
        (λ x. (pair_places (words_in part.now)
        ≡ (TimelineName, x.0.now) ∷ (Numeral, x.1.now) ∷ pair_places (words_in x.2.now))
        × (length x.2.now < length part.now)) }
{
    let Some((name, after)) = next_word(part) else {
        return None;
    };
    let Some((value, later)) = next_word(after) else {
        return None;
    };
    Some((name, value, later))
}

/// Whether each pair of a part has a name of the shape of names.
pub fn are_names(part: &[u8]) -> bool
    ensures { result ≡ list_all is_shaped (pair_places (words_in part.now)) }
{
    let mut rest = part;
    while let Some((name, _, after)) = next_pair(rest) {
        if !is_name(name) {
            return false;
        }
        rest = after;
    }
    true
}

/// Whether each pair of a part has a numeral.
pub fn are_numerals(part: &[u8]) -> bool
    ensures { result ≡ list_all is_numeric (pair_places (words_in part.now)) }
{
    let mut rest = part;
    while let Some((_, value, after)) = next_pair(rest) {
        if numeral(value).is_none() {
            return false;
        }
        rest = after;
    }
    true
}
