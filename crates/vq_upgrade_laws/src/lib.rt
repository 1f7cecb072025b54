//! A script means the same in each version, as laws over the definitions.
#![tactic(auto)]

pub mod laws;
