//! The forms of a script's lines: which form the words of a line have, and whether each word has the shape of its
//! place. The words of a long line are found again from its bytes each time, so that no list of them is kept.
//!
//! Words are those of `vq_model/specs/Text`. A walk takes no memory.
#![tactic(auto)]

mod matching;
mod open_words;
mod pairs;
mod parity;
mod shapes;
mod table;
mod walk;

pub use matching::{form_of, is_version};
pub use pairs::{are_names, are_numerals, next_pair};
pub use parity::{are_even, are_plain};
pub use shapes::{are_numeric, are_shaped};
pub use table::{Token, is_declaration, part_of_form};
pub use walk::{behind_head, find_few, next_word, without_comment};
