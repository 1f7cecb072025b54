//! Laws over the programs of the actors and their places.
#![tactic(auto)]

pub mod laws;
