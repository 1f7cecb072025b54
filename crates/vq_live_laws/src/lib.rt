//! A live timeline beside the lists of a timeline whose values are known from the start.
#![tactic(auto)]

pub mod laws;
