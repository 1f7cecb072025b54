//! Given lines, compared with those of a text.
ghost use Rattle.std.specs.Prelude.{◌≡◌, ◌<◌, ◌^◌, ◌+◌, All};
ghost use Rattle.std.specs.Str.{bytes_eq};
ghost use Rattle.vq_model.specs.Text.{lines_of};
ghost use Rattle.vq_audit.specs.Comparing.{first_difference};

use vq_given::given::GivenLine;
use vq_lexer::next_line;

/// Whether a given line is this one.
fn is_line(given: &GivenLine, line: &[u8]) -> bool
    ensures { result ≡ bytes_eq given.now.text line.now }
{
    given.text.as_slice() == line
}

/// The number of the first given line that isn't the one of a text at its place: where one is too many its number, and
/// where one is missing the number after the last, or after the end line where there is none.
pub(crate) fn first_difference(text: &[u8], given: &[GivenLine], end_line: u32) -> Option<u32>
    requires end { end_line + 1 < 2 ^ 32 }
    requires lines { All (λ x. x.line + 1 < 2 ^ 32) given.now }
    ensures { result ≡ first_difference (lines_of text.now) given.now end_line }
{
    let mut left = text;
    let mut last = end_line;
    for line in given {
        let Some((truth, behind)) = next_line(left) else {
            return Some(line.line);
        };
        if !is_line(line, truth) {
            return Some(line.line);
        }
        left = behind;
        last = line.line;
    }
    match next_line(left) {
        Some(_) => Some(last + 1),
        None => None,
    }
}
