//! The canonical text of a script reads back, as laws over the definitions.
#![tactic(auto)]

pub mod laws;
