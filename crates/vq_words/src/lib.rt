//! The words of the command line, read with `clap`.
#![tactic(auto)]

mod asked;
mod command;
mod read;
mod rounds;
mod table;
mod task;

pub use read::read_words;
pub use task::{Task, WordsFault};
