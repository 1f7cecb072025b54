//! The lines of a text that have ended.
ghost use Rattle.std.specs.Prelude.{◌≡◌, ◌≢◌, ◌<◌, ◌≤◌, ◌++◌, [], ◌∷◌, MatchOption, length, slice_index, ℕ, List};
ghost use Rattle.std.specs.Str.Lines.{strip_carriage_return};
ghost use Rattle.vq_capture.specs.Reading.{ended_lines};

use memchr::memchr;

/// A line without the one carriage return that belongs to its end.
fn without_return(line: &[u8]) -> &[u8]
    ensures { result.now ≡ strip_carriage_return line.now }
{
    match line {
        [front @ .., b'\r'] => front,
        _ => line,
    }
}

/// Where the first line feed of a text stands, or its length where there is none.
fn feed_place(text: &[u8]) -> usize
    ensures within { result ≤ length text.now }
    ensures before { (k : ℕ) → k < result → slice_index text.now k ≢ 10 }
    ensures found { result < length text.now → slice_index text.now result ≡ 10 }
{
    match memchr(b'\n', text) {
        Some(place) => place,
        None => text.len(),
    }
}

/// The first line of a text that has ended, and what follows it, whatever comes behind that.
pub fn first_line(text: &[u8]) -> Option<(&[u8], &[u8])>
    ensures { MatchOption result (ended_lines text.now ≡ [])
        (λ x. ((more : List ℕ) → ended_lines (text.now ++ more) ≡ x.0.now ∷ ended_lines (x.1.now ++ more))
        × (length x.1.now < length text.now)) }
{
    let end = feed_place(text);
    if end < text.len() {
        Some((without_return(&text[..end]), &text[end + 1..]))
    } else {
        None
    }
}
