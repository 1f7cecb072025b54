//! Calls of a timeline under its lock, each with the answer that is wanted.
ghost use Rattle.vq_live_lock.specs.Locked.{IsTaken};

use crate::steps::Step;
use std::sync::Wait;
use vq_live::Held;
use vq_live_lock::{LiveGuard, LockedLive};

/// Whether a question is answered as wanted.
fn is_answered(guard: &mut LiveGuard, of: &LockedLive, step: &Step) -> bool
    requires { IsTaken of.now guard.old }
    ensures { IsTaken of.now guard.new }
{
    match step {
        Step::LeastTaken(want) => guard.least_taken(of) == *want,
        Step::First(want) => guard.first(of) == *want,
        Step::Find(value, want) => guard.find(of, *value) == *want,
        Step::Value(want) => guard.value(of) == *want,
        _ => false,
    }
}

/// Whether a call is answered as wanted.
fn goes(guard: &mut LiveGuard, of: &LockedLive, step: &Step) -> bool
    requires { IsTaken of.now guard.old }
    ensures { IsTaken of.now guard.new }
{
    match step {
        Step::Take(value, want) => guard.take(of, *value) == *want,
        Step::Install(given, want) => guard.install(of, *given) == *want,
        Step::Cancel(given, want) => guard.cancel(of, *given) == *want,
        Step::Signal(value, want) => guard.signal(of, *value) == *want,
        Step::Complete(want) => guard.complete(of) == *want,
        _ => is_answered(guard, of, step),
    }
}

/// Whether one call under one lock is.
fn goes_alone<R: Wait>(rt: &R, timeline: &LockedLive, step: &Step) -> bool {
    let mut guard = timeline.lock(rt);
    let is_right = goes(&mut guard, timeline, step);
    let _shown = timeline.unlock(guard);
    is_right
}

/// Whether calls one after another are, each under a lock of its own.
pub(crate) fn go_alone<R: Wait>(rt: &R, timeline: &LockedLive, steps: &[Step]) -> bool {
    for step in steps {
        if !goes_alone(rt, timeline, step) {
            return false;
        }
    }
    true
}

/// Gives a reference back, and says whether none is left of its point.
fn is_given_back(guard: &mut LiveGuard, of: &LockedLive, held: Held) -> bool
    requires { IsTaken of.now guard.old }
    ensures { IsTaken of.now guard.new }
{
    let point = held.point();
    match guard.unref(of, held) {
        Ok(()) => guard.refs(of, point) == 0,
        Err(back) => {
            let _number = unsafe { back.into_point() };
            false
        }
    }
}

/// Whether a reference to the first point is counted and given back.
fn is_held(guard: &mut LiveGuard, of: &LockedLive) -> bool
    requires { IsTaken of.now guard.old }
    ensures { IsTaken of.now guard.new }
{
    match guard.refer(of, 0) {
        Err(_) => false,
        Ok(held) => {
            let is_counted = guard.refs(of, held.point()) == 1;
            is_given_back(guard, of, held) && is_counted
        }
    }
}

/// The same once room for one take is taken ahead and used.
pub(crate) fn holds_first<R: Wait>(rt: &R, timeline: &LockedLive) -> bool {
    let mut guard = timeline.lock(rt);
    let is_right = guard.reserve(timeline, 1).is_ok()
        && guard.take(timeline, 1).is_ok()
        && is_held(&mut guard, timeline);
    let _shown = timeline.unlock(guard);
    is_right
}
