//! The audit of a trace that somebody else wrote: whether each event may come where it stands, and what
//! follows the events is true.
//!
//! Source: this project's own.
#![tactic(auto)]

mod comparison;
mod ending;
mod judged;
mod laws;
mod playing;
mod verdict;

pub use judged::audit;
pub use laws::{texts_are_cut_once, traces_have_one_verdict};
pub use verdict::Verdict;
pub use vq_given::given::{Cut, GivenEvent, GivenLine, GivenTrace, TraceFault};
pub use vq_trace::{cut, read_trace};
