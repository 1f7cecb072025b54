//! The order of a plan: the slow run, what happens before what, and which signals are sure, as laws
//! over the definitions.
#![tactic(auto)]

pub mod laws;
