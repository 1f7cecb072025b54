//! The reader of captures, which is fed line by line: what a line says to the lines above it, and its first fault.
//!
//! Source: the format is this project's own.
#![tactic(auto)]

mod added;
mod batches;
mod names;
mod past_names;
mod read_line;
mod reader;
mod said;
mod slots;
mod statements;
mod word_tests;
mod words;

pub use added::Added;
pub use batches::OpenBatch;
pub use names::Names;
pub use past_names::{PastNames, Thing};
pub use reader::Reader;
