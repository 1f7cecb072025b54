//! What is waited for.
//!
//! Source: this project's own.
use crate::locked::LockedLive;

/// A value that is waited for, and its timeline.
#[derive(Clone, Copy)]
pub struct Wanted<'a> {
    pub timeline: &'a LockedLive,
    pub value: u64,
}
