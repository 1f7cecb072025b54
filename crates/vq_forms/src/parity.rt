//! Tests of all words of a part.
ghost use Rattle.std.specs.Prelude.{◌≡◌, ◌==◌, ◌%◌, length};
ghost use Rattle.std.specs.List.{list_all};
ghost use Rattle.vq_model.specs.Text.{is_plain, words_in};

use crate::walk::next_word;

/// Whether a byte may stand outside a comment.
fn is_plain_byte(byte: u8) -> bool
    ensures { result ≡ is_plain byte }
{
    (32 <= byte && byte <= 126) || byte == b'\t'
}

/// Whether each byte of a word may stand outside a comment.
fn is_plain(word: &[u8]) -> bool
    ensures { result ≡ list_all is_plain word.now }
{
    // No early end, so that many bytes are tested at once.
    let mut plain = true;
    for byte in word {
        plain &= is_plain_byte(*byte);
    }
    plain
}

/// Whether each byte of the words of a part may stand outside a comment.
pub fn are_plain(part: &[u8]) -> bool
    ensures { result ≡ list_all (list_all is_plain) (words_in part.now) }
{
    let mut rest = part;
    while let Some((word, after)) = next_word(rest) {
        if !is_plain(word) {
            return false;
        }
        rest = after;
    }
    true
}

/// Whether a part has an even number of words.
pub fn are_even(part: &[u8]) -> bool
    ensures { result ≡ (length (words_in part.now) % 2 == 0) }
{
    let mut rest = part;
    while let Some((_, after)) = next_word(rest) {
        let Some((_, later)) = next_word(after) else {
            return false;
        };
        rest = later;
    }
    true
}
