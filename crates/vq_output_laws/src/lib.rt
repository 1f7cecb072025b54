//! Each output of a plan is the text of a finished run, as a law over the definitions.
#![tactic(auto)]

pub mod laws;
