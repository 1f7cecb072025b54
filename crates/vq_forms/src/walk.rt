//! The words of a part of a line, one after another.
ghost use Rattle.std.specs.Prelude.{◌≡◌, ◌<◌, ◌≤◌, ◌++◌, ◌∷◌, ◌==◌, [], All, IfOk, MatchOption, drop, false, length};
ghost use Rattle.std.specs.List.{position_or_len};
ghost use Rattle.vq_model.specs.Text.{is_blank, words_in, without_comment};
ghost use Rattle.vq_lexer.specs.Words.{some_word, texts};
ghost use Rattle.vq_forms.specs.Few.{AreFirst};

use memchr::{memchr, memchr2};
use std::alloc::AllocError;

/// The most words that are found at once: more than a line without a fault has.
const MOST: usize = 63;

/// Where the comment of a line begins: at the first `#`, or at the line's end.
fn comment_start(line: &[u8]) -> usize
    ensures place { result ≡ position_or_len (λ b. b == 35) line.now }
    ensures within { result ≤ length line.now }
{
    memchr(b'#', line).unwrap_or(line.len())
}

/// A line without its comment.
pub fn without_comment(line: &[u8]) -> &[u8]
    ensures { result.now ≡ without_comment line.now }
{
    let end = comment_start(line);
    &line[..end]
}

/// Where the first word of a part ends: at a blank, or at the part's end.
fn word_end(part: &[u8]) -> usize
    ensures place { result ≡ position_or_len is_blank part.now }
    ensures within { result ≤ length part.now }
    ensures none { length part.now ≤ result → All (λ b. is_blank b ≡ false) part.now }
{
    memchr2(b' ', b'\t', part).unwrap_or(part.len())
}

/// The bytes of a part before its first blank, which may be none, and what follows that blank.
fn cut_first(part: &[u8]) -> Option<(&[u8], &[u8])>
    ensures { MatchOption result (words_in part.now ≡ [])
        (λ x. (words_in part.now ≡ some_word x.0.now ++ words_in x.1.now) × (length x.1.now < length part.now)) }
{
    if part.is_empty() {
        return None;
    }
    let end = word_end(part);
    if end < part.len() {
        Some((&part[..end], &part[end + 1..]))
    } else {
        Some((part, &part[part.len()..]))
    }
}

/// The first word of a part, and what follows it.
pub fn next_word(part: &[u8]) -> Option<(&[u8], &[u8])>
    ensures { MatchOption result (words_in part.now ≡ [])
        (λ x. (words_in part.now ≡ x.0.now ∷ words_in x.1.now) × (length x.1.now < length part.now)) }
{
    let mut rest = part;
    while let Some((word, after)) = cut_first(rest) {
        if !word.is_empty() {
            return Some((word, after));
        }
        rest = after;
    }
    None
}

/// A part without its first word.
fn behind_word(part: &[u8]) -> &[u8]
    ensures { words_in result.now ≡ drop 1 (words_in part.now) }
{
    match next_word(part) {
        Some((_, after)) => after,
        None => part,
    }
}

/// A part without its first three words, which stand before a list of pairs.
pub fn behind_head(part: &[u8]) -> &[u8]
    ensures { words_in result.now ≡ drop 3 (words_in part.now) }
{
    behind_word(behind_word(behind_word(part)))
}

/// Puts the words of a part, up to its 63rd, in place of those of the line before. It says whether these are all.
pub fn find_few<'a>(part: &'a [u8], words: &mut Vec<&'a [u8]>) -> Result<bool, AllocError>
    ensures { IfOk result (AreFirst (texts words.new.items) (words_in part.now)) }
{
    words.clear();
    let mut rest = part;
    while let Some((word, after)) = next_word(rest) {
        if words.len() == MOST {
            return Ok(false);
        }
        words.push(word)?;
        rest = after;
    }
    Ok(true)
}
