//! Points that are held, given back and used again.
use crate::steps::{Step, go};
use std::process::Abort;
use vq_live::{Given, Held, LiveTimeline, ReferFault};

const FIRST: Given = Given { value: 1, point: 0 };

const TAKEN: [Step; 1] = [Step::Take(1, Ok(FIRST))];

/// Of a timeline whose first point is held.
const KEPT: [Step; 3] = [
    Step::Install(FIRST, Ok(())),
    Step::Complete(Some(FIRST)),
    Step::Take(2, Ok(Given { value: 2, point: 1 })),
];

/// Of the same once the reference is given back.
const USED_AGAIN: [Step; 1] = [Step::Take(3, Ok(Given { value: 3, point: 0 }))];

/// Refers to the first point, once it is taken.
fn held(rt: &impl Abort, timeline: &mut LiveTimeline) -> Held {
    assert!(rt; go(timeline, &TAKEN));
    match timeline.refer(FIRST.point) {
        Err(_) => panic!(rt; "no reference"),
        Ok(held) => held,
    }
}

/// Gives a reference back.
fn give_back(rt: &impl Abort, timeline: &mut LiveTimeline, held: Held) {
    match timeline.unref(held) {
        Err(_) => panic!(rt; "not taken back"),
        Ok(()) => {}
    }
}

/// A point that is held completes, and isn't used again before its reference is given back.
#[test]
fn held_points_are_kept(rt: HostRuntime) {
    let mut timeline = LiveTimeline::new(rt.alloc(), 0);
    let reference = held(&rt, &mut timeline);
    assert!(rt; go(&mut timeline, &KEPT));
    give_back(&rt, &mut timeline, reference);
    assert!(rt; go(&mut timeline, &USED_AGAIN));
}

/// A reference of one timeline is handed back by another; and what isn't out isn't referred to.
#[test]
fn foreign_references_are_handed_back(rt: HostRuntime) {
    let mut timeline = LiveTimeline::new(rt.alloc(), 0);
    let mut other = LiveTimeline::new(rt.alloc(), 0);
    match other.refer(0) {
        Err(fault) => assert_eq!(rt; fault, ReferFault::NotOut),
        Ok(_) => panic!(rt; "no such point"),
    }
    let reference = held(&rt, &mut timeline);
    assert_eq!(rt; reference.point(), FIRST.point);
    match other.unref(reference) {
        Ok(()) => panic!(rt; "it is of the first"),
        Err(back) => give_back(&rt, &mut timeline, back),
    }
}
