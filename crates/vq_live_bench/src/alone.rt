//! The steps on a timeline without a lock.
use crate::step::{Step, Task};
use std::alloc::Global;
use vq_live::{Found, Held, LiveTimeline};

/// Makes the steps on a timeline of their own. It says whether they came out as wanted.
pub(crate) fn are_made(alloc: Global, task: Task) -> bool {
    let mut timeline = LiveTimeline::new(alloc, 0);
    is_filled(&mut timeline, task.flight) && make_all(&mut timeline, task)
}

/// Takes and installs so many values, from 1 on.
fn is_filled(timeline: &mut LiveTimeline, flight: u64) -> bool {
    let mut is_right = true;
    for before in 0..flight {
        is_right = is_installed(timeline, before.wrapping_add(1)) && is_right;
    }
    is_right
}

/// Takes a value and installs it.
fn is_installed(timeline: &mut LiveTimeline, value: u64) -> bool {
    match timeline.take(value) {
        Err(_) => false,
        Ok(given) => timeline.install(given).is_ok(),
    }
}

fn make_all(timeline: &mut LiveTimeline, task: Task) -> bool {
    let mut is_right = true;
    for _ in 0..task.rounds {
        is_right = is_made(timeline, task.step, task.flight) && is_right;
    }
    is_right
}

fn is_made(timeline: &mut LiveTimeline, step: Step, flight: u64) -> bool {
    match step {
        Step::Value | Step::Look => timeline.value() == 0,
        Step::Find => is_pending(timeline.find(flight / 2 + 1)),
        Step::Refer => is_held(timeline, 0),
        Step::Cancel => is_cancelled(timeline, flight.wrapping_add(1)),
        Step::Turn => turned(timeline, flight).is_some(),
        Step::Whole => is_whole(timeline, flight),
        Step::Signal => is_signaled(timeline),
        // a wake needs two threads
        Step::Exchange | Step::Wake => false,
    }
}

pub(crate) fn is_pending(found: Found) -> bool {
    match found {
        Found::Pending { .. } => true,
        Found::Past | Found::NotYet => false,
    }
}

/// Takes a reference and gives it back.
fn is_held(timeline: &mut LiveTimeline, point: u32) -> bool {
    match timeline.refer(point) {
        Err(_) => false,
        Ok(held) => is_given_back(timeline.unref(held)),
    }
}

/// Whether a reference was taken back. One that was refused is let go: it is of another timeline.
pub(crate) fn is_given_back(answer: Result<(), Held>) -> bool {
    match answer {
        Ok(()) => true,
        Err(held) => {
            let _number = unsafe { held.into_point() };
            false
        }
    }
}

fn is_cancelled(timeline: &mut LiveTimeline, value: u64) -> bool {
    match timeline.take(value) {
        Err(_) => false,
        Ok(given) => timeline.cancel(given).is_ok(),
    }
}

/// Takes the value after those in flight and installs it, and completes the first operation. It answers
/// the value that was taken, where all came out as wanted.
fn turned(timeline: &mut LiveTimeline, flight: u64) -> Option<u64> {
    let value = timeline.value().wrapping_add(flight).wrapping_add(1);
    if is_installed(timeline, value) && timeline.complete().is_some() {
        Some(value)
    } else {
        None
    }
}

/// Looks a value up, and holds the point at which it is pending.
fn held_at(timeline: &mut LiveTimeline, value: u64) -> Option<Held> {
    match timeline.find(value) {
        Found::Pending { at } => timeline.refer(at.point).ok(),
        Found::Past | Found::NotYet => None,
    }
}

/// A turn, and three look-ups of the value that was taken.
fn is_whole(timeline: &mut LiveTimeline, flight: u64) -> bool {
    let Some(value) = turned(timeline, flight) else {
        return false;
    };
    let mut is_right = true;
    for _ in 0..3 {
        is_right = is_looked_up(timeline, value) && is_right;
    }
    is_right
}

fn is_looked_up(timeline: &mut LiveTimeline, value: u64) -> bool {
    match held_at(timeline, value) {
        None => false,
        Some(held) => is_given_back(timeline.unref(held)),
    }
}

fn is_signaled(timeline: &mut LiveTimeline) -> bool {
    let next = timeline.value().wrapping_add(1);
    timeline.signal(next).is_ok()
}
