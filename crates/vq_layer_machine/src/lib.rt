//! Runs of a live layer beside the machine of the plan of what was submitted.
#![tactic(auto)]

pub mod laws;
