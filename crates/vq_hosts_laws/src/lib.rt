//! The runs of several host threads are those of the plan that their text is compiled to, as a law over the
//! definitions.
#![tactic(auto)]

pub mod laws;
