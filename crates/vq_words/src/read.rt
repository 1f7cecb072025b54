//! The words of the command line, read.
//!
//! Source: this project's own, where an item names no other.
ghost use Rattle.std.specs.Prelude.{◌≡◌, IfOk, map, string_bytes};
ghost use Rattle.vq_words.specs.Grammar.{Gives, HasFewRounds, task_of};
ghost use Rattle.vq_words.specs.Options.{has_clap_form};

use crate::asked::asked;
use crate::command::command;
use crate::task::{Task, WordsFault};
use clap::error::ErrorKind;
use std::alloc::Global;

/// Whether the list has two words at most, of which none is `--`.
fn has_clap_form(words: &[String]) -> bool
    ensures { result ≡ has_clap_form (map string_bytes words.now) }
{
    match words {
        [] => true,
        [word] => word.as_str() != "--",
        [word, number] => word.as_str() != "--" && number.as_str() != "--",
        [_, _, _, ..] => false,
    }
}

/// Reads the words of the command line, without the program's name.
///
/// The words are none, one of `--check`, `--replay`, `--rounds`, `--upgrade`, `--audit` and `--hosts` alone, `--generate`
/// and N, or `--generate=N` as one word, where N is one to three decimal digits that write a number from 1 to 500. `Bad`
/// comes for every other list, and `Memory` where memory is wanting.
pub fn read_words(alloc: Global, words: &[String]) -> Result<Task, WordsFault>
    ensures asked { Gives result (task_of (map string_bytes words.now)) }
    ensures rounds { IfOk result HasFewRounds }
{
    if !has_clap_form(words) {
        return Err(WordsFault::Bad);
    }
    let Ok(command) = command(alloc) else {
        return Err(WordsFault::Memory);
    };
    match command.try_get_matches_from(words) {
        Ok(matches) => asked(&matches).ok_or(WordsFault::Bad),
        Err(error) => match error.kind() {
            ErrorKind::OutOfMemory => Err(WordsFault::Memory),
            _ => Err(WordsFault::Bad),
        },
    }
}
