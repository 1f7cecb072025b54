//! Clocks of the check of captures: what they say of lanes, what was brought to lanes, and what of it is asked.
//!
//! Source: this project's own.
#![tactic(auto)]

pub mod cells;
pub mod clocks;
pub mod gone;
pub mod groups;
pub mod lane_sets;
pub mod least;
pub mod levels;
pub mod pruning;
