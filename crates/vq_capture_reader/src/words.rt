//! The words of a line, at their places.
ghost use Rattle.std.specs.Prelude.{◌≡◌, drop};
ghost use Rattle.vq_lexer.specs.Words.{texts};
ghost use Rattle.vq_capture.specs.Statements.{word_at};

/// The word at a place, none where the line has fewer.
pub fn word_at<'a>(words: &[&'a [u8]], place: usize) -> &'a [u8]
    ensures { result.now ≡ word_at (texts words.now) place }
{
    match words.get(place) {
        Some(word) => word,
        None => &[],
    }
}

/// The words behind the first.
pub fn behind_first<'a, 'b>(words: &'b [&'a [u8]]) -> &'b [&'a [u8]]
    ensures { texts result.now ≡ drop 1 (texts words.now) }
{
    match words {
        [_, behind @ ..] => behind,
        _ => &[],
    }
}
