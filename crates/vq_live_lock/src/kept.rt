//! What lies under the lock of a timeline, and what the lock was made for.
//!
//! Source: this project's own.
use crate::bell::{Bell, Heard};
use crate::gauge::{Gauge, Pen};
use std::snapshot::Snapshot;
use vq_live::LiveTimeline;
use vq_lock::Fits;

/// The gauge and the bell beside the lock.
#[derive(Drop)]
pub struct Home {
    pub gauge: Snapshot<Gauge>,
    pub bell: Snapshot<Bell>,
}

/// The timeline, the right to raise its gauge, the least value that somebody may wait for, and how often the bell
/// is known to be rung.
#[derive(Drop)]
pub struct Kept {
    pub(crate) timeline: LiveTimeline,
    pub(crate) pen: Pen,
    pub(crate) least: Option<u64>,
    pub(crate) heard: Heard,
}

impl Fits<Home> for Kept {
    ghost use Rattle.vq_live_lock.specs.Keeping.{IsAtHome};

    ghost fits = { IsAtHome };
}
