//! The board: words that actors change in single atomic steps, the rule over them and over what each
//! actor's pass knows, and laws on it.
#![tactic(auto)]

pub mod laws;
pub mod rule;
pub mod view;
