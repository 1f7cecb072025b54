//! Captures: what one run of an application submitted to its queues and waited for, as data, and the definitions of
//! what a capture's text says, of the order that it puts on accesses, and of a race.
//!
//! Source: the format is this project's own; the order is that of Vulkan 1.3, "Execution and Memory Dependencies".
#![tactic(auto)]

pub mod capture;
pub mod form;
pub mod stage;
pub mod statement;
