//! A live timeline that is told of no completion: it completes an operation only by what shows that the
//! sync object of that very take was seen signaled.
#![tactic(auto)]

mod calls;
mod completing;
#[cfg(test)]
mod stale_tests;
mod syncs;
mod taking;
mod timeline;

pub use syncs::{BinarySync, Signaled};
pub use timeline::{Reach, SyncedTimeline, Taken};
