//! How far the actor of a berth has come.
//!
//! Source: this project's own.
use std::alloc::{AllocError, Global};
use std::sync::atomic::Ordering::SeqCst;
use std::sync::atomic::{AtomicBool, AtomicU64};

/// How far an actor has come. Who has its berth alone writes it.
#[derive(Drop)]
pub(crate) struct Progress {
    turns: AtomicU64,
    has_ended: AtomicBool,
}

/// Before the first turn of each of so many actors. The error is want of memory.
pub(crate) fn all_progress(alloc: Global, count: usize) -> Result<Vec<Progress>, AllocError> {
    let mut progress = Vec::with_capacity(alloc, count)?;
    for _ in 0..count {
        progress.push(Progress {
            turns: AtomicU64::new(0),
            has_ended: AtomicBool::new(false),
        })?;
    }
    Ok(progress)
}

/// The number of an actor's next turn, counted from 0.
pub(crate) fn next_turn(progress: &[Progress], place: usize) -> u64 {
    match progress.get(place) {
        Some(of) => of.turns.fetch_add(1, SeqCst),
        None => 0,
    }
}

/// Notes that an actor has no turn more.
pub(crate) fn end(progress: &[Progress], place: usize) {
    if let Some(of) = progress.get(place) {
        of.has_ended.store(true, SeqCst);
    }
}

/// Whether an actor has no turn more.
pub(crate) fn has_ended(progress: &[Progress], place: usize) -> bool {
    match progress.get(place) {
        Some(of) => of.has_ended.load(SeqCst),
        None => true,
    }
}
