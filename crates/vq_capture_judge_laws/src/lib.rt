//! Laws over the verdict on captures: that the verdict on a text is the definition's, and so is what a judgement writes.
#![tactic(auto)]

pub mod laws;
