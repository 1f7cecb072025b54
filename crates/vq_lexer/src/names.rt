//! Names.
ghost use Rattle.std.specs.Prelude.{◌≡◌, ◌||◌, true, IfOk, drop};
ghost use Rattle.std.specs.List.{list_all};
ghost use Rattle.vq_model.specs.Meaning.{is_marked};
ghost use Rattle.vq_model.specs.Text.{is_name, is_letter, is_digit};

use std::alloc::{AllocError, Global};
use std::str;
use vq_model::list::Name;

fn is_letter(byte: u8) -> bool
    ensures { result ≡ is_letter byte }
{
    byte.is_ascii_uppercase() || byte.is_ascii_lowercase() || byte == b'_'
}

/// Whether each byte of a word may stand in a name.
fn has_name_bytes(word: &[u8]) -> bool
    ensures { result ≡ list_all (λ b. is_letter b || is_digit b) word.now }
{
    for byte in word {
        if !is_letter(*byte) && !byte.is_ascii_digit() {
            return false;
        }
    }
    true
}

/// Whether a word is a name.
pub fn is_name(word: &[u8]) -> bool
    ensures { result ≡ is_name word.now }
{
    !word.is_empty() && word.len() <= 16 && !word[0].is_ascii_digit() && has_name_bytes(word)
}

/// A name as data.
pub fn owned_name(alloc: Global, word: &[u8]) -> Result<Name, AllocError>
    requires { is_name word.now ≡ true }
    ensures { IfOk result (λ name. name ≡ word.now) }
{
    match str::from_utf8(word) {
        Ok(text) => Ok(Name::of(String::from_str(alloc, text)?)),
        Err(_) => unreachable!(),
    }
}

/// Whether a word begins with this letter and a colon.
pub fn is_marked(letter: u8, word: &[u8]) -> bool
    ensures { result ≡ is_marked letter word.now }
{
    match word {
        [first, second, ..] => *first == letter && *second == b':',
        _ => false,
    }
}

/// What follows the first two bytes of a word.
pub fn after_mark(word: &[u8]) -> &[u8]
    ensures { result.now ≡ drop 2 word.now }
{
    match word {
        [_, _, name @ ..] => name,
        _ => &[],
    }
}
