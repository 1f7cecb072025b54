//! Queues and threads that are gone, by their numbers.
ghost use Rattle.std.specs.Prelude.{◌≡◌, ◌<◌, ◌/◌, ◌%◌, ◌&&◌, ◌==◌, not, if◌then◌else◌, true, ℕ, OnOk, length};
ghost use Rattle.vq_capture_clocks.specs.Gone.{gone_at, gone_place, is_gone};
ghost use Rattle.vq_capture_clocks.specs.LaneSets.{has_lane};

use crate::lane_sets::{both, either, lane_at, without};
use std::alloc::AllocError;

/// The place of a thread's lane.
const LAST: usize = 14;

/// What of a number is gone: the queue, whose lanes are the first fourteen, and the thread, whose lane is the last.
#[derive(Clone, Copy)]
pub struct GoneLanes {
    pub queue: bool,
    pub thread: bool,
}

/// Nothing is gone.
const NONE_GONE: GoneLanes = GoneLanes {
    queue: false,
    thread: false,
};

/// What of a number is gone.
pub fn gone_at(gone: &[GoneLanes], number: usize) -> GoneLanes
    ensures { result ≡ gone_at gone.now number }
{
    match gone.get(number) {
        Some(lanes) => *lanes,
        None => NONE_GONE,
    }
}

/// Whether the lanes of a number's queue are gone.
pub fn is_queue_gone(gone: &[GoneLanes], number: usize) -> bool
    ensures { (lane : ℕ) → lane / 15 ≡ number → lane % 15 < 14 → result ≡ is_gone gone.now lane }
{
    gone_at(gone, number).queue
}

/// Whether the lane of a place of a number is gone.
pub fn is_lane_gone(gone: &[GoneLanes], number: usize, place: usize) -> bool
    ensures { (lane : ℕ) → lane / 15 ≡ number → lane % 15 ≡ place → result ≡ is_gone gone.now lane }
{
    let lanes = gone_at(gone, number);
    if place < LAST {
        lanes.queue
    } else {
        lanes.thread
    }
}

/// A set, unless a test holds.
fn unless(test: bool, set: u16) -> u16
    ensures { (p : ℕ) → has_lane result p ≡ (not test && has_lane set p) }
{
    if test { 0 } else { set }
}

/// The places of a set that aren't gone.
pub fn left_of(set: u16, gone: GoneLanes) -> u16
    ensures { (p : ℕ) → p < 15 → has_lane result p ≡ (has_lane set p && not (gone_place gone p)) }
{
    let last = lane_at(LAST);
    let queue = unless(gone.queue, without(set, last));
    let thread = unless(gone.thread, both(set, last));
    either(queue, thread)
}

/// Keeps of more numbers what is gone of them, up to one.
fn reach(gone: &mut Vec<GoneLanes>, number: usize) -> Result<(), AllocError>
    ensures same { OnOk result ((n : ℕ) → gone_at gone.new.items n ≡ gone_at gone.old.items n) }
    ensures wide { OnOk result (number < length gone.new.items) }
{
    while gone.len() <= number {
        gone.push(NONE_GONE)?;
    }
    Ok(())
}

/// The queue of a number is gone. The error is want of memory.
pub fn end_queue(gone: &mut Vec<GoneLanes>, number: usize) -> Result<(), AllocError>
    ensures { OnOk result ((n : ℕ) → gone_at gone.new.items n ≡ (if n == number
        then record (gone_at gone.old.items n) { queue = true } else gone_at gone.old.items n)) }
{
    reach(gone, number)?;
    gone[number].queue = true;
    Ok(())
}

/// The thread of a number is gone. The error is want of memory.
pub fn end_thread(gone: &mut Vec<GoneLanes>, number: usize) -> Result<(), AllocError>
    ensures { OnOk result ((n : ℕ) → gone_at gone.new.items n ≡ (if n == number
        then record (gone_at gone.old.items n) { thread = true } else gone_at gone.old.items n)) }
{
    reach(gone, number)?;
    gone[number].thread = true;
    Ok(())
}
