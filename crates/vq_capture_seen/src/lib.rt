//! Which writes an access of a capture sees: a search along the order, over the points that were fed to it.
//!
//! Source: Vulkan 1.3, "Execution and Memory Dependencies" and "Memory Model".
#![tactic(auto)]

pub mod kinds;
pub mod leads;
pub mod scopes;
pub mod spot;
pub mod watch;
pub mod ways;
