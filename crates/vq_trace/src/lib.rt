//! The reader of given traces: where an input is cut into a script and a trace, and what the trace says of a plan.
//!
//! Source: this project's own.
#![tactic(auto)]

mod actors;
mod cutting;
mod events;
mod first_word;
mod index;
mod names;
mod places;
mod reader;
mod said;
mod tables;
mod turns;
mod verbs;

pub use cutting::cut;
pub use reader::read_trace;
