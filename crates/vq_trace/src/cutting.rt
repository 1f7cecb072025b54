//! Where an input is cut into a script and a trace.
ghost use Rattle.std.specs.Prelude.{◌≡◌, ◌<◌, ◌≤◌, ◌-◌, ◌+◌, ◌^◌, ℕ, List, [], ◌∷◌, MatchOption, IfSome, drop, length, take};
ghost use Rattle.vq_model.specs.Text.{lines_of};
ghost use Rattle.vq_given.specs.Cutting.{IsCut, IsUncut, is_cut_line};
ghost use Rattle.vq_trace.specs.FirstLines.{EndsLine};

use crate::first_word::is_cut_line;
use vq_given::given::Cut;
use vq_lexer::next_line;

/// How many bytes the first line of a text has, with its line feed.
fn line_len(text: &[u8]) -> usize
    requires { 0 < length text.now }
    ensures ends { EndsLine text.now result }
    ensures some { 0 < result }
    ensures within { result ≤ length text.now }
{
    for (place, byte) in text.iter().enumerate() {
        if *byte == b'\n' {
            return place + 1;
        }
    }
    text.len()
}

/// Whether a text of one line cuts.
fn cuts(text: &[u8]) -> bool
    ensures { (line : List ℕ) → lines_of text.now ≡ line ∷ [] → result ≡ is_cut_line line }
{
    match next_line(text) {
        Some((line, _)) => is_cut_line(line),
        None => false,
    }
}

/// Where a text is cut into a script and a trace: at the first line with the one word `trace`, if there is one. Words
/// are those of scripts, so that a comment may follow. The text has fewer than 2^32 - 1 lines. The lines of the script,
/// the one that cuts and those of the trace are all its lines.
///
/// The format is this project's own.
pub fn cut(bytes: &[u8]) -> Option<Cut>
    requires { length (lines_of bytes.now) < 2 ^ 32 - 1 }
    ensures cut { MatchOption result (IsUncut bytes.now) (IsCut bytes.now) }
    ensures places { IfSome result (λ cut. (cut.script_end ≤ cut.trace_start)
        × (cut.trace_start ≤ length bytes.now)) }
    ensures script_lines { IfSome result (λ cut.
        length (lines_of (take cut.script_end bytes.now)) < length (lines_of bytes.now)) }
    ensures trace_lines { IfSome result (λ cut.
        cut.first + length (lines_of (drop cut.trace_start bytes.now)) ≡ length (lines_of bytes.now) + 1) }
{
    let mut start = 0;
    let mut number: u32 = 1;
    while start < bytes.len() {
        let end = start + line_len(&bytes[start..]);
        if cuts(&bytes[start..end]) {
            return Some(Cut {
                script_end: start,
                trace_start: end,
                first: number + 1,
            });
        }
        start = end;
        number += 1;
    }
    None
}
