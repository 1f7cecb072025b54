//! The words of a capture's lines: which form a line has, and which scopes words write.
//!
//! Source: the format is this project's own; the stages and accesses are those of Vulkan 1.3, "Pipeline Stages" and
//! "Access Types".
#![tactic(auto)]

mod accesses;
mod matching;
mod parts;
mod scopes;
mod stages;

pub use matching::form_of;
pub use scopes::{access_scope_of, scope_of};
