//! Laws over the clocks of captures: that they tell just what is before a step, and so which step races with it.
#![tactic(auto)]

pub mod laws;
