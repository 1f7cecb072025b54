//! Rows of numbers that stand one behind another in one list, so that a row takes no memory of its own.
#![tactic(auto)]

mod rows;

pub use rows::Rows;
