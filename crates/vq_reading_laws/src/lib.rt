//! What a script that was read keeps, as laws over the definitions.
#![tactic(auto)]

pub mod laws;
