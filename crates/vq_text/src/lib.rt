//! The texts of the project: the canonical text of a script, the texts of answers and of buffers, and the
//! words that a trace is made of.
//!
//! A call `put_..` adds to a text that has room for what it adds, and takes no memory; a call `push_..`
//! makes room first.
#![tactic(auto)]

mod answers;
mod batches;
mod buffers;
mod commands;
mod declarations;
mod hexadecimal;
mod host_steps;
mod room;
mod schedule;
mod script;
mod words;

pub use answers::{LINE_ROOM, push_answer, push_answers, put_answers};
pub use batches::{queue_name, semaphore_name};
pub use buffers::{buffers_room, put_buffer};
pub use room::{put_bytes, put_number};
pub use schedule::push_actor;
pub use script::{print, print_as};
pub use words::{push_number, push_numeral, push_word};
