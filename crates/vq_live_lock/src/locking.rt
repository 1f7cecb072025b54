//! The opening of a locked timeline, and its lock.
//!
//! Source: this project's own.
ghost use Rattle.std.specs.Prelude.{◌≡◌, ◌≤◌, IfOk};
ghost use Rattle.std.specs.Arc.{arc_value};
ghost use Rattle.vq_live.specs.Live.{KeepsLive};
ghost use Rattle.vq_live_lock.specs.Locked.{IsFree, IsOn, IsTaken, IsReadAs, started_with, timeline_of};

use crate::bell::Bell;
use crate::gauge::{Gauge, Reached};
use crate::kept::{Home, Kept};
use crate::locked::{LiveGuard, LockedLive};
use std::alloc::{AllocError, Global};
use std::snapshot::Snapshot;
use std::sync::{Arc, Wait};
use vq_live::LiveTimeline;
use vq_lock::KeyedLock;

impl LockedLive {
    /// A timeline that reached this value, with no points, and with this bell. The error is want of
    /// memory; of the other calls only `take` wants any.
    pub fn new(
        alloc: Global,
        bell: &Arc<Bell, Global>,
        initial: u64,
    ) -> Result<LockedLive, AllocError>
        ensures bell { IfOk result (IsOn (arc_value bell.now)) }
        ensures from { IfOk result (λ t. started_with t ≡ initial) }
    {
        let bell = Arc::try_clone(bell)?;
        let (gauge, pen) = Gauge::new(alloc, initial)?;
        let home = Home {
            gauge: Snapshot::of(&gauge),
            bell: Snapshot::of(&*bell),
        };
        let kept = Kept {
            timeline: LiveTimeline::new(alloc, initial),
            pen,
            least: None,
            heard: bell.hear(),
        };
        let lock = KeyedLock::new(alloc, &home, kept)?;
        Ok(LockedLive { lock, gauge, bell })
    }

    /// Waits until the lock is free, and takes it.
    pub fn lock<R: Wait>(&self, rt: &R) -> LiveGuard
        ensures free { IsFree self.now result }
        ensures kept { KeepsLive (timeline_of result) }
        ensures from { started_with self.now ≤ (timeline_of result).payload }
    {
        LiveGuard {
            guard: self.lock.lock(rt),
        }
    }

    /// Shows the payload to all, frees the lock, and wakes who waits, where a value is reached that
    /// somebody waits for. It hands out what shows that the payload is reached.
    pub fn unlock(&self, guard: LiveGuard) -> Reached
        requires { IsTaken self.now guard }
        ensures { IsReadAs self.now result (timeline_of guard).payload }
    {
        let LiveGuard { mut guard } = guard;
        let (rings, reached) = guard.content(&self.lock).publish(&self.gauge, &self.bell);
        self.lock.unlock(guard);
        if rings {
            self.bell.wake();
        }
        reached
    }
}
