//! The order of takes, installs and completions, in each way that drivers call them.
use crate::guarded::{go_alone, holds_first};
use crate::scene::opened;
use crate::steps::{Step, go};
use std::alloc::Global;
use std::sync::Wait;
use vq_live::{CancelFault, Found, Given, InstallFault, LiveTimeline, SignalFault, TakeFault};

const ONE: Given = Given { value: 1, point: 1 };

const TWO: Given = Given { value: 2, point: 0 };

/// Of a timeline where 2 is taken before 1.
const FALLING: [Step; 2] = [Step::Take(2, Ok(TWO)), Step::Take(1, Ok(ONE))];

/// Whether these steps come out as wanted on a new timeline where 2 is taken before 1.
fn go_on(alloc: Global, steps: &[Step]) -> bool {
    let mut timeline = LiveTimeline::new(alloc, 0);
    go(&mut timeline, &FALLING) && go(&mut timeline, steps)
}

/// The same under a lock, taken anew for each step.
fn go_on_locked<R: Wait>(rt: &R, alloc: Global, steps: &[Step]) -> bool {
    let Some(timeline) = opened(alloc) else {
        return false;
    };
    go_alone(rt, &timeline, &FALLING) && go_alone(rt, &timeline, steps)
}

const RISING: [Step; 7] = [
    Step::Take(2, Err(TakeFault::Twice)),
    Step::Install(TWO, Err(InstallFault::NotNext { next: ONE })),
    Step::Find(1, Found::NotYet),
    Step::Signal(1, Err(SignalFault::Outstanding { first: 1 })),
    Step::Install(ONE, Ok(())),
    Step::Find(1, Found::Pending { at: ONE }),
    Step::Take(1, Err(TakeFault::NotAbove { pending: 1 })),
];

/// Takes needn't rise, installs do, and nothing is found before it is installed.
#[test]
fn installs_rise(rt: HostRuntime) {
    assert!(rt; go_on(rt.alloc(), &RISING));
    assert!(rt; go_on_locked(&rt, rt.alloc(), &RISING));
}

const LATE: [Step; 8] = [
    Step::LeastTaken(Some(ONE)),
    Step::Install(ONE, Ok(())),
    Step::First(Some(ONE)),
    Step::Complete(Some(ONE)),
    Step::Install(ONE, Err(InstallFault::Already)),
    Step::Cancel(ONE, Err(CancelFault::Already)),
    Step::Value(1),
    Step::Find(1, Found::Past),
];

/// A reader installs and completes for the submitting thread, which comes late.
#[test]
fn late_install_is_answered(rt: HostRuntime) {
    assert!(rt; go_on(rt.alloc(), &LATE));
    assert!(rt; go_on_locked(&rt, rt.alloc(), &LATE));
}

const CANCELLED: [Step; 8] = [
    Step::Cancel(Given { value: 2, point: 1 }, Err(CancelFault::NotTaken)),
    Step::Cancel(ONE, Ok(())),
    Step::Take(1, Ok(ONE)),
    Step::Cancel(ONE, Ok(())),
    Step::Signal(1, Ok(())),
    Step::Signal(1, Err(SignalFault::NotAbove { payload: 1 })),
    Step::Cancel(TWO, Ok(())),
    Step::Install(TWO, Err(InstallFault::NothingTaken)),
];

/// A submission fails, and its value may be taken again; the host signals what is left.
#[test]
fn taken_values_are_cancelled(rt: HostRuntime) {
    assert!(rt; go_on(rt.alloc(), &CANCELLED));
    assert!(rt; go_on_locked(&rt, rt.alloc(), &CANCELLED));
}

fn first_is_held<R: Wait>(rt: &R, alloc: Global) -> bool {
    match opened(alloc) {
        Some(timeline) => holds_first(rt, &timeline),
        None => false,
    }
}

/// A point is held, counted and given back under one lock, with room that was taken ahead.
#[test]
fn points_are_held_under_a_lock(rt: HostRuntime) {
    assert!(rt; first_is_held(&rt, rt.alloc()));
}
