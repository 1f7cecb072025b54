//! The steps on a timeline under its lock, as threads of a driver make them. A call that needs no other
//! beside it is made under a lock of its own.
ghost use Rattle.vq_live_lock.specs.Locked.{IsTaken};

use crate::alone::{is_given_back, is_pending};
use crate::step::{Step, Task};
use std::alloc::Global;
use std::sync::{Arc, Wait};
use vq_live::{Found, Given, Held, SignalFault};
use vq_live_lock::{Bell, LiveGuard, LockedLive};

/// A timeline with a bell of its own.
pub(crate) fn opened(alloc: Global) -> Option<LockedLive> {
    let bell = Arc::new(alloc, Bell::new(alloc).ok()?).ok()?;
    LockedLive::new(alloc, &bell, 0).ok()
}

/// Takes and installs so many values, from 1 on.
pub(crate) fn is_filled<R: Wait>(rt: &R, timeline: &LockedLive, flight: u64) -> bool {
    let mut is_right = true;
    for before in 0..flight {
        is_right = is_installed(rt, timeline, before.wrapping_add(1)) && is_right;
    }
    is_right
}

/// Takes a value and installs it.
fn is_submitted(guard: &mut LiveGuard, of: &LockedLive, value: u64) -> bool
    requires { IsTaken of.now guard.old }
    ensures { IsTaken of.now guard.new }
{
    match guard.take(of, value) {
        Err(_) => false,
        Ok(given) => guard.install(of, given).is_ok(),
    }
}

/// Does so under one lock.
fn is_installed<R: Wait>(rt: &R, timeline: &LockedLive, value: u64) -> bool {
    let mut guard = timeline.lock(rt);
    let is_right = is_submitted(&mut guard, timeline, value);
    let _shown = timeline.unlock(guard);
    is_right
}

/// Makes the steps of a thread, which has this number. It says whether they came out as wanted.
pub(crate) fn are_made<R: Wait>(rt: &R, timeline: &LockedLive, task: Task, thread: u64) -> bool {
    let mut is_right = true;
    for round in 0..task.rounds {
        is_right = is_made(rt, timeline, task, thread, round) && is_right;
    }
    is_right
}

fn is_made<R: Wait>(rt: &R, timeline: &LockedLive, task: Task, thread: u64, round: u64) -> bool {
    let flight = task.flight;
    match task.step {
        Step::Value => value_once(rt, timeline) == 0,
        Step::Look => timeline.look().0 == 0,
        Step::Find => is_pending(found_once(rt, timeline, flight / 2 + 1)),
        Step::Refer => is_held(rt, timeline, 0),
        Step::Cancel => is_cancelled(rt, timeline, flight.wrapping_add(thread)),
        Step::Turn => turned_once(rt, timeline, flight).is_some(),
        Step::Whole => is_whole(rt, timeline, flight),
        Step::Signal => is_signaled(rt, timeline),
        Step::Wake => is_woken(rt, timeline, flight, thread, round),
        Step::Exchange => false,
    }
}

/// Asks for the value under the lock.
fn value_once<R: Wait>(rt: &R, timeline: &LockedLive) -> u64 {
    let mut guard = timeline.lock(rt);
    let value = guard.value(timeline);
    let _shown = timeline.unlock(guard);
    value
}

/// Looks a value up under the lock.
fn found_once<R: Wait>(rt: &R, timeline: &LockedLive, value: u64) -> Found {
    let mut guard = timeline.lock(rt);
    let found = guard.find(timeline, value);
    let _shown = timeline.unlock(guard);
    found
}

/// Holds a point, under a lock of its own.
fn referred_once<R: Wait>(rt: &R, timeline: &LockedLive, point: u32) -> Option<Held> {
    let mut guard = timeline.lock(rt);
    let held = guard.refer(timeline, point).ok();
    let _shown = timeline.unlock(guard);
    held
}

/// Gives a reference back, under a lock of its own.
fn is_returned<R: Wait>(rt: &R, timeline: &LockedLive, held: Held) -> bool {
    let mut guard = timeline.lock(rt);
    let answer = guard.unref(timeline, held);
    let _shown = timeline.unlock(guard);
    is_given_back(answer)
}

/// Takes a reference and gives it back, under a lock each.
fn is_held<R: Wait>(rt: &R, timeline: &LockedLive, point: u32) -> bool {
    match referred_once(rt, timeline, point) {
        None => false,
        Some(held) => is_returned(rt, timeline, held),
    }
}

/// Takes a value, under a lock of its own.
fn taken_once<R: Wait>(rt: &R, timeline: &LockedLive, value: u64) -> Option<Given> {
    let mut guard = timeline.lock(rt);
    let given = guard.take(timeline, value).ok();
    let _shown = timeline.unlock(guard);
    given
}

/// Cancels an operation, under a lock of its own.
fn is_taken_back<R: Wait>(rt: &R, timeline: &LockedLive, given: Given) -> bool {
    let mut guard = timeline.lock(rt);
    let is_right = guard.cancel(timeline, given).is_ok();
    let _shown = timeline.unlock(guard);
    is_right
}

/// Takes a value and cancels it, under a lock each.
fn is_cancelled<R: Wait>(rt: &R, timeline: &LockedLive, value: u64) -> bool {
    match taken_once(rt, timeline, value) {
        None => false,
        Some(given) => is_taken_back(rt, timeline, given),
    }
}

/// Takes the value after those in flight and installs it, and completes the first operation. It answers
/// the value that was taken, where all came out as wanted.
fn turned(guard: &mut LiveGuard, of: &LockedLive, flight: u64) -> Option<u64>
    requires { IsTaken of.now guard.old }
    ensures { IsTaken of.now guard.new }
{
    let value = guard.value(of).wrapping_add(flight).wrapping_add(1);
    if is_submitted(guard, of, value) && guard.complete(of).is_some() {
        Some(value)
    } else {
        None
    }
}

/// A turn under one lock: where several threads submit, the next value is chosen, taken and installed
/// before another thread chooses. The completion stands there as a driver's, which collects before it
/// takes.
fn turned_once<R: Wait>(rt: &R, timeline: &LockedLive, flight: u64) -> Option<u64> {
    let mut guard = timeline.lock(rt);
    let value = turned(&mut guard, timeline, flight);
    let _shown = timeline.unlock(guard);
    value
}

/// A turn, and three look-ups of the value that was taken.
fn is_whole<R: Wait>(rt: &R, timeline: &LockedLive, flight: u64) -> bool {
    let Some(value) = turned_once(rt, timeline, flight) else {
        return false;
    };
    let mut is_right = true;
    for _ in 0..3 {
        is_right = is_looked_up(rt, timeline, value) && is_right;
    }
    is_right
}

/// Looks a value up, and holds the point at which it is pending.
fn held_at(guard: &mut LiveGuard, of: &LockedLive, value: u64) -> Option<Held>
    requires { IsTaken of.now guard.old }
    ensures { IsTaken of.now guard.new }
{
    match guard.find(of, value) {
        Found::Pending { at } => guard.refer(of, at.point).ok(),
        Found::Past | Found::NotYet => None,
    }
}

/// Does so under one lock, as a waiter does before it leaves the lock.
fn held_once<R: Wait>(rt: &R, timeline: &LockedLive, value: u64) -> Option<Held> {
    let mut guard = timeline.lock(rt);
    let held = held_at(&mut guard, timeline, value);
    let _shown = timeline.unlock(guard);
    held
}

/// Does so, and gives the reference back under the next lock. There is none where the value is past.
fn is_looked_up<R: Wait>(rt: &R, timeline: &LockedLive, value: u64) -> bool {
    match held_once(rt, timeline, value) {
        None => timeline.reached(value).is_some(),
        Some(held) => is_returned(rt, timeline, held),
    }
}

/// Signals a value, under a lock of its own.
fn signaled_once<R: Wait>(rt: &R, timeline: &LockedLive, value: u64) -> Result<(), SignalFault> {
    let mut guard = timeline.lock(rt);
    let answer = guard.signal(timeline, value);
    let _shown = timeline.unlock(guard);
    answer
}

/// Signals the value after the payload. Another thread may have signaled it since the look.
fn is_signaled<R: Wait>(rt: &R, timeline: &LockedLive) -> bool {
    let next = timeline.look().0.wrapping_add(1);
    match signaled_once(rt, timeline, next) {
        Ok(()) | Err(SignalFault::NotAbove { .. }) => true,
        Err(SignalFault::Outstanding { .. }) => false,
    }
}

/// Waits until the value is reached.
fn is_waited_for<R: Wait>(rt: &R, timeline: &LockedLive, value: u64) -> bool {
    let _shown = timeline.wait(rt, value);
    true
}

/// A turn, which reaches the value that the other thread waits for, and a wait for what that thread's
/// turn reaches: the first thread's turns reach the odd values, and the second's the even ones.
fn is_woken<R: Wait>(rt: &R, timeline: &LockedLive, flight: u64, thread: u64, round: u64) -> bool {
    let odd = round.wrapping_mul(2).wrapping_add(1);
    if thread == 1 {
        return turned_once(rt, timeline, flight).is_some()
            && is_waited_for(rt, timeline, odd.wrapping_add(1));
    }
    is_waited_for(rt, timeline, odd) && turned_once(rt, timeline, flight).is_some()
}
