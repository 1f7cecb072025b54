//! Data types of scripts and plans, and the definitions that the contracts of all crates cite.
#![tactic(auto)]

pub mod hexadecimal;
pub mod indices;
pub mod limits;
pub mod list;
pub mod plan;
pub mod ranges;
pub mod script;
pub mod statement;
