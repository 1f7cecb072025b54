//! The number of rounds.
ghost use Rattle.std.specs.Prelude.{◌≡◌};
ghost use Rattle.vq_words.specs.Grammar.{number_of_rounds};

/// The number of rounds that a word writes, in one to three decimal digits.
pub fn number_of_rounds(word: &[u8]) -> Option<u32>
    ensures { result ≡ number_of_rounds word.now }
{
    if word.is_empty() || word.len() > 3 {
        return None;
    }
    let mut number: u32 = 0;
    for byte in word {
        if !byte.is_ascii_digit() {
            return None;
        }
        number = 10 * number + u32::from(*byte - b'0');
    }
    if number < 1 || number > 500 {
        return None;
    }
    Some(number)
}
