//! Traces that somebody else wrote: what their lines say of a plan, as data, and the definition of what is
//! read. The line of a trace is that of a replay's text.
//!
//! Source: this project's own.
#![tactic(auto)]

pub mod given;
pub mod verb;
