//! The check of a capture: whether a step races with one above it, and with which, by clocks.
//!
//! Source: the order is that of Vulkan 1.3, "Execution and Memory Dependencies".
#![tactic(auto)]

mod gone_sites;
mod kept;
mod kept_lines;
mod lanes;
mod least;
mod loose;
mod numbered_sites;
mod past_sites;
mod signals;
mod sites;
mod stage_lanes;
mod things;
mod told;
mod touched;
mod touched_lines;
mod watch;

pub use told::Told;
pub use watch::Watch;
