//! What tests and examples of timelines over the board stand on, through public calls alone: two batches of one queue,
//! which signal one timeline, the steps of their passes, and the timeline's bell, for waits as futures.
#![tactic(auto)]

pub mod host;
pub mod plans;
mod pointing;
pub mod rings;
pub mod submitting;
pub mod watched;
pub mod watched_steps;
