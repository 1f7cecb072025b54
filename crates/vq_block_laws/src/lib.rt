//! What a text with thread blocks is compiled to, as laws over the definitions.
#![tactic(auto)]

pub mod laws;
