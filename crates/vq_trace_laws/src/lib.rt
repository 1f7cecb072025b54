//! Laws on the texts that a replay and rounds write: read as given traces, they are lawful.
#![tactic(auto)]

pub mod laws;
