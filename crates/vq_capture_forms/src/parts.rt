//! Words, and the parts of a word between marks.
ghost use Rattle.std.specs.Prelude.{◌≡◌, ◌≢◌, ◌<◌, ◌≤◌, ◌==◌, ◌∷◌, IfSome, length, slice_index, ℕ};
ghost use Rattle.std.specs.List.{slice_split};
ghost use Rattle.std.specs.Str.{bytes_eq};
ghost use Rattle.vq_capture_forms.specs.Parts.{parts_left};

/// Whether a word is this text.
#[inline(always)]
pub fn is(word: &[u8], text: &str) -> bool
    ensures { result ≡ bytes_eq word.now text.now }
{
    word == text.as_bytes()
}

/// Where the first mark of a word stands, or its length where there is none.
fn mark_place(word: &[u8], mark: u8) -> usize
    ensures within { result ≤ length word.now }
    ensures before { (k : ℕ) → k < result → slice_index word.now k ≢ mark }
    ensures found { result < length word.now → slice_index word.now result ≡ mark }
{
    for (place, byte) in word.iter().enumerate() {
        if *byte == mark {
            return place;
        }
    }
    word.len()
}

/// The first of the parts of a word between marks, and what stands behind its mark, if there is one.
pub fn first_part(word: &[u8], mark: u8) -> (&[u8], Option<&[u8]>)
    ensures parts { slice_split (λ b. b == mark) word.now ≡ result.0.now ∷ parts_left (λ b. b == mark) result.1 }
    ensures shorter { IfSome result.1 (λ rest. length rest.now < length word.now) }
{
    let end = mark_place(word, mark);
    if end < word.len() {
        (&word[..end], Some(&word[end + 1..]))
    } else {
        (word, None)
    }
}
