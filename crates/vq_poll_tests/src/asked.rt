//! What is asked of waits on boards of their own.
ghost use Rattle.std.specs.Prelude.{◌≡◌};
ghost use Rattle.vq_timeline_stage.specs.TwoBatches.{IsOfTwoBatches};
ghost use Rattle.vq_poll.specs.Watching.{IsWatched, plan_at};
ghost use Rattle.vq_timeline_stage.specs.Scenes.{AreIdle, IsScene};

use crate::polls_tests::{Answer, gives_back, is_answered};
use crate::pool_tests::wakes_both;
use crate::threads_tests::{Waiting, ends_in_threads};
use crate::wakes_tests::wakes;
use std::alloc::AllocGlobal;
use std::random::RandomSource;
use std::sync::Wait;
use std::thread::Threads;
use vq_order::Ordered;
use vq_poll::WatchedBoard;
use vq_timeline_stage::watched::{Actors, Scene, close, planned, scene_of, watched_of};

/// What is asked.
#[derive(Clone, Copy)]
pub(crate) enum Asked {
    /// After all steps a wait answers so.
    Answers(Answer),
    /// A wait that owns its pass gives it back.
    GivesBack,
    /// A wait is woken by the bell.
    Wakes,
    /// Two tasks are woken by one ring.
    WakesBoth,
    /// While another thread makes the ring's steps, what waits comes to its end.
    Ends(Waiting),
}

/// Whether it is so on this board, whose passes have done nothing.
fn is_so_on<R: Threads + Wait + RandomSource + AllocGlobal + Sync>(
    rt: &R,
    watched: WatchedBoard<'_>,
    scene: &Scene,
    actors: Actors,
    asked: Asked,
) -> bool
    requires watched { IsWatched watched }
    requires plan { IsOfTwoBatches (plan_at watched) }
    requires board { watched.board.now ≡ scene.now.board }
    requires scene { IsScene scene.now }
    requires actors { AreIdle scene.now.board actors }
{
    match asked {
        Asked::Answers(answer) => is_answered(rt, watched, scene, actors, answer),
        Asked::GivesBack => gives_back(rt, watched, scene, actors),
        Asked::Wakes => wakes(rt, watched, scene, actors),
        Asked::WakesBoth => wakes_both(rt, watched, scene, actors),
        Asked::Ends(waiting) => ends_in_threads(rt, watched, scene, actors, waiting),
    }
}

/// Whether it is so on a board of the plan.
fn is_so_once<R: Threads + Wait + RandomSource + AllocGlobal + Sync>(
    rt: &R,
    ordered: &Ordered,
    asked: Asked,
) -> bool {
    match scene_of(rt.alloc(), ordered) {
        Some((scene, actors)) => {
            let so = is_so_on(rt, watched_of(ordered, &scene), &scene, actors, asked);
            close(scene);
            so
        }
        None => false,
    }
}

/// Whether it is so each time, so many times, each on a board of its own.
fn is_so_often<R: Threads + Wait + RandomSource + AllocGlobal + Sync>(
    rt: &R,
    ordered: &Ordered,
    asked: Asked,
    times: u32,
) -> bool {
    for _ in 0..times {
        if !is_so_once(rt, ordered, asked) {
            return false;
        }
    }
    true
}

/// The same for the plan of the script.
pub(crate) fn is_so<R: Threads + Wait + RandomSource + AllocGlobal + Sync>(
    rt: &R,
    asked: Asked,
    times: u32,
) -> bool {
    match planned(rt.alloc()) {
        Some(ordered) => is_so_often(rt, &ordered, asked, times),
        None => false,
    }
}
