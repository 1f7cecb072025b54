//! Two timelines with one bell, and one by which the waiting thread answers.
ghost use Rattle.std.specs.Arc.{arc_value};
ghost use Rattle.vq_live_lock.specs.Locked.{IsOn, IsTaken};

use std::alloc::{AllocError, Global};
use std::sync::{Arc, Wait};
use vq_live_lock::{Bell, LiveGuard, LockedLive};

#[derive(Drop)]
pub(crate) struct Scene {
    pub(crate) bell: Arc<Bell, Global>,
    pub(crate) first: LockedLive,
    pub(crate) second: LockedLive,
    pub(crate) done: LockedLive,
    ghost first_on: { IsOn (arc_value bell) first },
    ghost second_on: { IsOn (arc_value bell) second },
}

impl Scene {
    pub(crate) fn new(alloc: Global) -> Result<Scene, AllocError> {
        let bell = Arc::new(alloc, Bell::new(alloc)?)?;
        let first = LockedLive::new(alloc, &bell, 0)?;
        let second = LockedLive::new(alloc, &bell, 0)?;
        let done = LockedLive::new(alloc, &bell, 0)?;
        Ok(Scene {
            bell,
            first,
            second,
            done,
        })
    }
}

/// A timeline with a bell of its own.
pub(crate) fn opened(alloc: Global) -> Option<LockedLive> {
    let bell = Arc::new(alloc, Bell::new(alloc).ok()?).ok()?;
    LockedLive::new(alloc, &bell, 0).ok()
}

/// Takes a point for the value, installs it and completes it.
fn is_reached(guard: &mut LiveGuard, of: &LockedLive, value: u64) -> bool
    requires { IsTaken of.now guard.old }
    ensures { IsTaken of.now guard.new }
{
    let Ok(given) = guard.take(of, value) else {
        return false;
    };
    guard.install(of, given).is_ok() && guard.complete(of) == Some(given)
}

/// Does so under one lock.
pub(crate) fn reach<R: Wait>(rt: &R, timeline: &LockedLive, value: u64) -> bool {
    let mut guard = timeline.lock(rt);
    let is_right = is_reached(&mut guard, timeline, value);
    let _shown = timeline.unlock(guard);
    is_right
}

/// Signals the value from the host.
pub(crate) fn signal<R: Wait>(rt: &R, timeline: &LockedLive, value: u64) -> bool {
    let mut guard = timeline.lock(rt);
    let is_right = guard.signal(timeline, value).is_ok();
    let _shown = timeline.unlock(guard);
    is_right
}

/// Reaches four values, of which the last is waited for.
pub(crate) fn reach_four<R: Wait>(rt: &R, timeline: &LockedLive, last: u64) -> bool {
    let mut is_right = true;
    for below in [3, 2, 1, 0] {
        is_right = reach(rt, timeline, last.wrapping_sub(below)) && is_right;
    }
    is_right
}
