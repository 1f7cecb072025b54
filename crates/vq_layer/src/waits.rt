//! Where the waits of a batch stand, and the references that a released batch holds.
ghost use Rattle.std.specs.Prelude.{◌≡◌};
ghost use Rattle.vq_layer.specs.Waits.{found_in, first_not_yet, return_in, returned_all, held_at, hold_in, held_all, waits_all};
ghost use Rattle.vq_layer.specs.Waits.{holds, left_by_waits};

use crate::{Wait, Wanted};
use vq_live::{Found, Held, LiveTimeline};

// Where a value of a timeline stands.
#[tactic(auto, using(crate::proofs::Lookups::read_live, std::proofs::lemmas::List::set_past))]
pub(crate) fn found_in(timelines: &[LiveTimeline], wanted: Wanted) -> Found
    ensures { result ≡ found_in timelines.now wanted }
{
    if (wanted.timeline as usize) >= timelines.len() {
        return Found::NotYet;
    }
    timelines[wanted.timeline as usize].find(wanted.value)
}

// The first wait for a value that is neither past nor pending.
pub(crate) fn first_not_yet(timelines: &[LiveTimeline], waits: &[Wait]) -> Option<Wanted>
    ensures { result ≡ first_not_yet timelines.now waits.now }
{
    for wait in waits {
        if found_in(timelines, wait.wanted) == Found::NotYet {
            return Some(wait.wanted);
        }
    }
    None
}

// Gives the reference of a wait back, if it holds one.
#[tactic(auto, using(crate::proofs::Lookups::read_live, std::proofs::lemmas::List::set_past))]
fn return_in(timelines: &mut [LiveTimeline], wait: Wait)
    ensures { timelines.new ≡ return_in timelines.old wait }
{
    if let Some(point) = wait.held {
        if (wait.wanted.timeline as usize) < timelines.len() {
            let held = unsafe { Held::from_point(point) };
            if let Err(back) = timelines[wait.wanted.timeline as usize].unref(held) {
                let _ = unsafe { back.into_point() };
            }
        }
    }
}

// Gives the references of these waits back.
pub(crate) fn return_all(timelines: &mut [LiveTimeline], waits: &[Wait])
    ensures { timelines.new ≡ returned_all timelines.old waits.now }
{
    for w in waits {
        return_in(timelines, *w);
    }
}

// Holds the point of the operation that a wait is for, if it is pending.
#[tactic(auto, using(crate::proofs::Lookups::read_live, std::proofs::lemmas::List::set_past))]
fn hold_in(timelines: &mut [LiveTimeline], wanted: Wanted) -> Option<u32>
    ensures held { result ≡ held_at timelines.old wanted }
    ensures after { timelines.new ≡ hold_in timelines.old wanted }
{
    match found_in(timelines, wanted) {
        Found::Pending { at } => match timelines[wanted.timeline as usize].refer(at.point) {
            Ok(held) => Some(unsafe { held.into_point() }),
            Err(_) => None,
        },
        _ => None,
    }
}

// Holds the points of the operations that all these waits are for.
pub(crate) fn hold_all(timelines: &mut [LiveTimeline], waits: &mut [Wait])
    ensures after { timelines.new ≡ held_all timelines.old waits.old }
    ensures held { waits.new ≡ waits_all timelines.old waits.old }
{
    for i in 0..waits.len() {
        let wanted = waits[i].wanted;
        let held = hold_in(timelines, wanted);
        waits[i] = Wait { wanted, held };
    }
}

// Whether a wait holds this point of this timeline.
fn holds(timeline: u32, point: u32, wait: Wait) -> bool
    ensures { result ≡ holds timeline point wait }
{
    if wait.wanted.timeline != timeline {
        return false;
    }
    match wait.held {
        None => false,
        Some(held) => held == point,
    }
}

// What is left of so many references to a point without those that these waits hold.
pub(crate) fn left_by_waits(timeline: u32, point: u32, refs: u32, waits: &[Wait]) -> u32
    ensures { result ≡ left_by_waits timeline point refs waits.now }
{
    let mut left = refs;
    for w in waits {
        if holds(timeline, point, *w) {
            left = left.saturating_sub(1);
        }
    }
    left
}
