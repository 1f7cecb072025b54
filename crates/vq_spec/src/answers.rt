//! The text of answers.
//!
//! Source: this project's own, where an item names no other.
ghost use Rattle.std.specs.Prelude.{◌≡◌, IfOk};
ghost use Rattle.vq_model.specs.OutputText.{answer_text};

use std::alloc::{AllocError, Global};
use vq_model::plan::AnswerLine;
use vq_text::push_answers;

/// The text of answers: for each a line with the line of its step and what it was answered, `ok`,
/// `timeout`, `not-ready`, or `value` and a payload. The error is want of memory.
pub fn answer_text(alloc: Global, lines: &[AnswerLine]) -> Result<Vec<u8>, AllocError>
    ensures { IfOk result (λ text. text.items ≡ answer_text lines.now) }
{
    let mut out = Vec::new(alloc);
    push_answers(&mut out, lines)?;
    Ok(out)
}
