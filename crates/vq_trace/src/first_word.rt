//! The first word of a line, without memory.
ghost use Rattle.std.specs.Prelude.{◌≡◌, ◌≤◌, ◌||◌, ◌==◌, [], ◌∷◌, MatchOption, codes, length, true, false};
ghost use Rattle.std.specs.List.{position_or_len};
ghost use Rattle.vq_model.specs.Text.{is_blank, words_of};
ghost use Rattle.vq_given.specs.Cutting.{is_cut_line};
ghost use Rattle.vq_trace.specs.Words.{ends_word, starts_blank};

fn is_blank(byte: u8) -> bool
    ensures { result ≡ is_blank byte }
{
    byte == b' ' || byte == b'\t'
}

/// Whether a byte ends the word before it.
fn ends_word(byte: u8) -> bool
    ensures { result ≡ ends_word byte }
{
    is_blank(byte) || byte == b'#'
}

/// A line from its first byte on that is no blank.
#[tactic(auto, using(crate::proofs::FirstWord::words_blank))]
fn without_blanks(line: &[u8]) -> &[u8]
    ensures same { words_of result.now ≡ words_of line.now }
    ensures begins { starts_blank result.now ≡ false }
{
    let mut rest = line;
    while let [first, after @ ..] = rest {
        if !is_blank(*first) {
            return rest;
        }
        rest = after;
    }
    rest
}

/// How many bytes the word has with which a line begins.
fn word_len(line: &[u8]) -> usize
    ensures place { result ≡ position_or_len ends_word line.now }
    ensures within { result ≤ length line.now }
{
    for (place, byte) in line.iter().enumerate() {
        if ends_word(*byte) {
            return place;
        }
    }
    line.len()
}

/// The first word of a line, and what follows it.
#[tactic(auto, using(crate::proofs::FirstWord::first_is, crate::proofs::FirstWord::none_is))]
fn first_word(line: &[u8]) -> Option<(&[u8], &[u8])>
    ensures { MatchOption result (words_of line.now ≡ [])
        (λ x. words_of line.now ≡ x.0.now ∷ words_of x.1.now) }
{
    let rest = without_blanks(line);
    let end = word_len(rest);
    if end == 0 {
        None
    } else {
        Some((&rest[..end], &rest[end..]))
    }
}

/// Whether a line has the one word `trace`.
pub(crate) fn is_cut_line(line: &[u8]) -> bool
    ensures { result ≡ is_cut_line line.now }
{
    let Some((word, rest)) = first_word(line) else {
        return false;
    };
    word == b"trace".as_slice() && first_word(rest).is_none()
}
