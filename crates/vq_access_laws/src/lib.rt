//! The place of an actor that is true of its pass of the board: what each step keeps of it, and what the pass may do
//! there.
#![tactic(auto)]

pub mod laws;
