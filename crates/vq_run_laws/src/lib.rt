//! The runs of the specification's machine, as laws over the definitions.
#![tactic(auto)]

pub mod laws;
