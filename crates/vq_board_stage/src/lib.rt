//! What tests, measures and examples of the board have in common: lawful plans of texts, boards with their passes,
//! batches that have nothing to do with other jobs, the steps of single actors, each with what its pass has done before
//! and after, and boards of the scripts in which these act.
#![tactic(auto)]

pub mod alone;
mod host_jobs;
pub mod host_steps;
pub mod passes;
pub mod plans;
mod reads;
pub mod rings;
pub mod running;
pub mod scenes;
pub mod shelves;
pub mod submitting;
pub mod three_signals;
mod two_waits;
pub mod waiting;
