//! Points, the events on them, and the lists of a timeline: definitions, and laws over them.
#![tactic(auto)]

pub mod laws;
