//! The check of a capture, which leaves out of its clocks what no line to come asks of them.
//!
//! Source: this project's own.
#![tactic(auto)]

mod past_told;
mod pruning_watch;

pub use pruning_watch::PruningWatch;
