//! Two timelines of one board: while one thread holds the lock of A, another takes all turns of a batch that signals T.
//! With one lock for both this would wait for ever.
ghost use Rattle.std.specs.Prelude.{◌≡◌};
ghost use Rattle.vq_access.specs.Timelines.{AreOf};
ghost use Rattle.vq_board.specs.Named.{plan_of};
ghost use Rattle.vq_board_stage.specs.Dealing.{AreNew};
ghost use Rattle.vq_timeline.specs.Named.{IsAt};

use crate::scene::{HOST, Part, RING_P, SUBMIT_P, play, plays};
use crate::turns::Expected::Makes;
use crate::turns::Turn;
use std::alloc::Global;
use std::sync::Wait;
use std::sync::atomic::{AtomicU64, Ordering};
use std::thread::{Threads, join};
use vq_access::Waiting;
use vq_board::{Board, Passes};
use vq_model::plan::Event;
use vq_order::Ordered;
use vq_timeline::{Collected, LockedTimeline};

/// The first batch of P to its end, and the take of the second one, which completes its signal and uses its point again.
const TURNS: [Turn; 13] = [
    (HOST, Makes(Event::Submit { job: 0 })),
    (
        SUBMIT_P,
        Makes(Event::Take {
            op: 0,
            point: 0,
            fresh: true,
        }),
    ),
    (SUBMIT_P, Makes(Event::Release { job: 0 })),
    (SUBMIT_P, Makes(Event::Bind { op: 0, point: 0 })),
    (RING_P, Makes(Event::Start { job: 0 })),
    (RING_P, Makes(Event::Apply { job: 0, command: 0 })),
    (RING_P, Makes(Event::Signal { op: 0 })),
    (RING_P, Makes(Event::Finish { job: 0 })),
    (HOST, Makes(Event::Submit { job: 1 })),
    (HOST, Makes(Event::Submit { job: 2 })),
    (SUBMIT_P, Makes(Event::Complete { op: 0 })),
    (SUBMIT_P, Makes(Event::Free { point: 0 })),
    (
        SUBMIT_P,
        Makes(Event::Take {
            op: 1,
            point: 0,
            fresh: false,
        }),
    ),
];

/// What one thread tells another: 0 until it does.
fn tell(word: &AtomicU64) {
    word.store(1, Ordering::SeqCst);
    word.wake_all();
}

/// Waits until the other thread has told it.
fn hear<R: Wait>(rt: &R, word: &AtomicU64) {
    for _ in rt.forever() {
        if word.load(Ordering::SeqCst) == 1 {
            return;
        }
        word.park(rt, 0);
    }
}

/// Holds the lock of a timeline until the other thread is done. It says whether there was nothing to collect.
fn holds<R: Wait>(
    rt: &R,
    board: &Board,
    timeline: &LockedTimeline,
    held: &AtomicU64,
    done: &AtomicU64,
) -> bool
    requires { IsAt board.now timeline.now }
{
    let mut guard = timeline.lock(rt, board);
    let collected = guard.collect(timeline, board);
    tell(held);
    hear(rt, done);
    timeline.unlock(board, guard);
    collected == Collected::Nothing
}

/// The same of the second timeline of the list.
fn holds_second<R: Wait>(
    rt: &R,
    board: &Board,
    timelines: &[LockedTimeline],
    held: &AtomicU64,
    done: &AtomicU64,
) -> bool
    requires { AreOf board.now timelines.now }
{
    match timelines.get(1) {
        Some(timeline) => holds(rt, board, timeline, held, done),
        None => {
            tell(held);
            false
        }
    }
}

/// The same once the other thread holds its lock, which hears when it is done.
fn plays_meanwhile<R: Wait>(
    rt: &R,
    alloc: Global,
    ordered: &Ordered,
    board: &Board,
    timelines: &[LockedTimeline],
    passes: Passes,
    held: &AtomicU64,
    done: &AtomicU64,
) -> bool
    requires plan { plan_of board.now ≡ ordered.now }
    requires timelines { AreOf board.now timelines.now }
    requires passes { AreNew board.now passes }
{
    hear(rt, held);
    let lists = Waiting::new(rt);
    let played = plays(rt, &lists, alloc, ordered, board, timelines, passes, &TURNS);
    tell(done);
    played == Some(true)
}

/// Both, each in a thread of its own.
pub(crate) fn are_apart<R: Threads + Wait + Sync>(
    rt: &R,
    alloc: Global,
    ordered: &Ordered,
    board: &Board,
    timelines: &[LockedTimeline],
    passes: Passes,
) -> bool
    requires plan { plan_of board.now ≡ ordered.now }
    requires timelines { AreOf board.now timelines.now }
    requires passes { AreNew board.now passes }
{
    let held = AtomicU64::new(0);
    let done = AtomicU64::new(0);
    let (held, done) = (&held, &done);
    join(
        rt,
        move || -> bool
            requires { AreOf board.now timelines.now }
        { holds_second(rt, board, timelines, held, done) },
        move || -> bool
            requires plan { plan_of board.now ≡ ordered.now }
            requires timelines { AreOf board.now timelines.now }
            requires passes { AreNew board.now passes }
        { plays_meanwhile(rt, alloc, ordered, board, timelines, passes, held, done) },
    ) == (true, true)
}

#[test]
fn a_batch_ends_while_the_lock_of_another_timeline_is_held(rt: HostRuntime) {
    assert!(rt; play(&rt, rt.alloc(), Part::Apart) == Some(true));
}
