//! The accesses of a resource: which of them conflict, which stand for which, and those that are kept, in an index by
//! their kinds and ranges.
//!
//! Source: stages are those of Vulkan 1.3, "Pipeline Stages"; the rest is this project's own.
#![tactic(auto)]

pub mod conflicts;
pub mod index;
pub mod joins;
pub mod kind;
pub mod masks;
pub mod places;
pub mod same;
pub mod standing;
pub mod touch;
