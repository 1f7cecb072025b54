//! The lexer of scripts: the lines of a text, the words of a line, and the names and numerals that words are.
//!
//! Lines and words are parts of the text: nothing is copied. Each call answers as the definitions of
//! `vq_model/specs/Text` do.
#![tactic(auto)]

mod lines;
mod names;
mod numerals;
mod words;

pub use lines::next_line;
pub use names::{after_mark, is_marked, is_name, owned_name};
pub use numerals::{hex_bytes, is_hex, numeral, small_numeral};
pub use words::find_words;
