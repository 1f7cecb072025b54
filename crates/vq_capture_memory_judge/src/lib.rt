//! The verdict with memory on a capture that was read whole, and its text.
//!
//! Source: the format is this project's own.
#![tactic(auto)]

mod races;
mod reading;
mod search;
mod texts;
mod top;

pub use top::judge_memory;
