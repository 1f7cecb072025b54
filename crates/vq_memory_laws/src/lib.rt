//! What commands do to the bytes of buffers, as laws over the definitions.
#![tactic(auto)]

pub mod laws;
