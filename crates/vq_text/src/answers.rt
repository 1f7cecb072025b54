//! The text of answers.
//!
//! Source: this project's own, where an item names no other.
ghost use Rattle.std.specs.Prelude.{◌≡◌, ◌≤◌, ◌+◌, ◌*◌, ◌++◌, OnOk, codes, length};
ghost use Rattle.std.specs.Fmt.{decimal};
ghost use Rattle.std.specs.Vec.{vec_capacity, vec_len};
ghost use Rattle.vq_model.specs.OutputText.{answer_line, answer_text, answer_words};

use crate::room::{put_bytes, put_number};
use std::alloc::AllocError;
use vq_model::plan::{Answer, AnswerLine};

/// The most bytes of an answer's words: `value `, and the 20 digits of a number of 64 bits.
const WORDS_ROOM: usize = 26;

/// The most bytes of an answer's line: the 10 digits of a number of 32 bits, a space, the words and a
/// line feed.
pub const LINE_ROOM: usize = 38;

/// Adds the payload that was read to a text that has room for the longest.
fn put_value(out: &mut Vec<u8>, value: u64)
    requires { vec_len out.old + 26 ≤ vec_capacity out.old }
    ensures items { out.new.items ≡ out.old.items ++ (codes "value " ++ decimal value) }
    ensures len { vec_len out.new ≤ vec_len out.old + 26 }
    ensures capacity { vec_capacity out.old ≤ vec_capacity out.new }
{
    put_bytes(out, b"value ");
    put_number(out, value);
}

/// Adds the words of an answer to a text that has room for the longest.
fn put_words(out: &mut Vec<u8>, answer: Answer)
    requires { vec_len out.old + 26 ≤ vec_capacity out.old }
    ensures items { out.new.items ≡ out.old.items ++ answer_words answer }
    ensures len { vec_len out.new ≤ vec_len out.old + 26 }
    ensures capacity { vec_capacity out.old ≤ vec_capacity out.new }
{
    match answer {
        Answer::Reached => put_bytes(out, b"ok"),
        Answer::Timeout => put_bytes(out, b"timeout"),
        Answer::NotReady => put_bytes(out, b"not-ready"),
        Answer::Value(value) => put_value(out, value),
    }
}

/// Adds one line: the line of the step, and its answer.
fn put_line(out: &mut Vec<u8>, line: u32, answer: Answer)
    requires { vec_len out.old + 38 ≤ vec_capacity out.old }
    ensures items { out.new.items
        ≡ out.old.items ++ answer_line (record { line = line; answer = answer }) }
    ensures len { vec_len out.new ≤ vec_len out.old + 38 }
    ensures capacity { vec_capacity out.old ≤ vec_capacity out.new }
{
    put_number(out, u64::from(line));
    put_bytes(out, b" ");
    put_words(out, answer);
    put_bytes(out, b"\n");
}

/// Adds the text of answers to a text that has room for it: for each a line with the line of its step
/// and what it was answered, `ok`, `timeout`, `not-ready`, or `value` and a payload. No line has more
/// than 38 bytes. It takes no memory.
pub fn put_answers(out: &mut Vec<u8>, lines: &[AnswerLine])
    requires { vec_len out.old + 38 * length lines.now ≤ vec_capacity out.old }
    ensures items { out.new.items ≡ out.old.items ++ answer_text lines.now }
    ensures len { vec_len out.new ≤ vec_len out.old + 38 * length lines.now }
    ensures capacity { vec_capacity out.old ≤ vec_capacity out.new }
{
    for line in lines {
        put_line(out, line.line, line.answer);
    }
}

/// Adds the words of an answer: `ok`, `timeout`, `not-ready`, or `value` and a payload. The error is
/// want of memory.
pub fn push_answer(out: &mut Vec<u8>, answer: Answer) -> Result<(), AllocError>
    ensures { OnOk result (out.new.items ≡ out.old.items ++ answer_words answer) }
{
    out.reserve(WORDS_ROOM)?;
    put_words(out, answer);
    Ok(())
}

/// Adds the text of answers, as `put_answers` does, with room for each line. The error is want of
/// memory.
pub fn push_answers(out: &mut Vec<u8>, lines: &[AnswerLine]) -> Result<(), AllocError>
    ensures { OnOk result (out.new.items ≡ out.old.items ++ answer_text lines.now) }
{
    for line in lines {
        out.reserve(LINE_ROOM)?;
        put_line(out, line.line, line.answer);
    }
    Ok(())
}
