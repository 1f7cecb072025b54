//! Turns by who waits for the locks of timelines, and by who tries them.
use crate::scene::{HOST, Part, RING_P, RING_Q, SUBMIT_P, SUBMIT_Q, play};
use crate::turns::Expected::{IsHeldBack, Makes};
use crate::turns::Turn;
use vq_model::plan::Event;
use vq_model::script::ActorName;

/// The second ring.
const Q: ActorName = ActorName::Ring(1);

/// A point is taken for the first signal, completed while a reference is held to it, freed once that is given back, and
/// used again.
const POINTS: [Turn; 21] = [
    (HOST, Makes(Event::Submit { job: 0 })),
    (
        SUBMIT_P,
        Makes(Event::Take {
            op: 0,
            point: 0,
            fresh: true,
        }),
    ),
    (SUBMIT_P, Makes(Event::Release { job: 0 })),
    (SUBMIT_P, Makes(Event::Bind { op: 0, point: 0 })),
    (HOST, Makes(Event::Submit { job: 1 })),
    (SUBMIT_Q, Makes(Event::Release { job: 1 })),
    (
        RING_Q,
        Makes(Event::Refer {
            actor: Q,
            point: 0,
            op: 0,
        }),
    ),
    (RING_P, Makes(Event::Start { job: 0 })),
    (RING_P, Makes(Event::Apply { job: 0, command: 0 })),
    (RING_P, Makes(Event::Signal { op: 0 })),
    (RING_P, Makes(Event::Finish { job: 0 })),
    (HOST, Makes(Event::Submit { job: 2 })),
    (SUBMIT_P, Makes(Event::Complete { op: 0 })),
    // point 0 is completed and still held, so the next operation has a new one
    (
        SUBMIT_P,
        Makes(Event::Take {
            op: 1,
            point: 1,
            fresh: true,
        }),
    ),
    (SUBMIT_P, Makes(Event::Release { job: 2 })),
    (SUBMIT_P, Makes(Event::Bind { op: 1, point: 1 })),
    (
        RING_Q,
        Makes(Event::Look {
            actor: Q,
            point: 0,
            op: 0,
        }),
    ),
    (
        RING_Q,
        Makes(Event::Unref {
            actor: Q,
            point: 0,
            op: 0,
        }),
    ),
    (HOST, Makes(Event::Submit { job: 3 })),
    (SUBMIT_P, Makes(Event::Free { point: 0 })),
    // and now it carries another operation
    (
        SUBMIT_P,
        Makes(Event::Take {
            op: 2,
            point: 0,
            fresh: false,
        }),
    ),
];

#[test]
fn a_point_that_is_held_is_not_used_again(rt: HostRuntime) {
    assert!(rt; play(&rt, rt.alloc(), Part::Waiting(&POINTS)) == Some(true));
}

#[test]
fn no_turn_has_to_wait_where_nobody_else_asks(rt: HostRuntime) {
    assert!(rt; play(&rt, rt.alloc(), Part::Trying(&POINTS)) == Some(true));
}

/// The host goes on for D, whose wait is bound, between the two takes for the batch of E, which is released all the same.
const DEFERRED: [Turn; 14] = [
    (HOST, Makes(Event::Submit { job: 0 })),
    (HOST, Makes(Event::Submit { job: 1 })),
    (HOST, Makes(Event::Submit { job: 2 })),
    (HOST, Makes(Event::Submit { job: 3 })),
    (HOST, Makes(Event::Submit { job: 4 })),
    (HOST, Makes(Event::Submit { job: 5 })),
    (
        HOST,
        Makes(Event::Take {
            op: 3,
            point: 0,
            fresh: true,
        }),
    ),
    (
        SUBMIT_P,
        Makes(Event::Take {
            op: 0,
            point: 1,
            fresh: true,
        }),
    ),
    (SUBMIT_P, Makes(Event::Release { job: 0 })),
    (SUBMIT_P, Makes(Event::Bind { op: 0, point: 1 })),
    (HOST, Makes(Event::Release { job: 4 })),
    (
        HOST,
        Makes(Event::Take {
            op: 4,
            point: 2,
            fresh: true,
        }),
    ),
    (HOST, Makes(Event::Release { job: 5 })),
    (HOST, Makes(Event::Bind { op: 3, point: 0 })),
];

#[test]
fn another_queue_goes_on_between_the_takes_of_a_batch(rt: HostRuntime) {
    assert!(rt; play(&rt, rt.alloc(), Part::Waiting(&DEFERRED)) == Some(true));
}

/// A turn that tries lists which are in use makes nothing, and says so; once they are free it goes on.
const IN_USE: [Turn; 6] = [
    (HOST, Makes(Event::Submit { job: 0 })),
    (SUBMIT_P, IsHeldBack { op: 0 }),
    (
        SUBMIT_P,
        Makes(Event::Take {
            op: 0,
            point: 0,
            fresh: true,
        }),
    ),
    (SUBMIT_P, Makes(Event::Release { job: 0 })),
    (SUBMIT_P, IsHeldBack { op: 0 }),
    (SUBMIT_P, Makes(Event::Bind { op: 0, point: 0 })),
];

#[test]
fn a_turn_is_held_back_while_lists_are_in_use(rt: HostRuntime) {
    assert!(rt; play(&rt, rt.alloc(), Part::Trying(&IN_USE)) == Some(true));
}
