//! Tasks of one executor that wait at one bell.
ghost use Rattle.std.specs.Prelude.{◌≡◌, []};
ghost use Rattle.vq_timeline_stage.specs.Acting.{HasRun};
ghost use Rattle.vq_timeline_stage.specs.TwoBatches.{IsOfTwoBatches};
ghost use Rattle.vq_poll.specs.Watching.{IsWatched, plan_at};
ghost use Rattle.vq_timeline_stage.specs.Scenes.{AreHandedOn, AreIdle, IsScene};

use crate::asked::{Asked, is_so};
use crate::pools::{Counted, pool_for};
use futures::executor::LocalPool;
use std::alloc::AllocGlobal;
use std::random::RandomSource;
use std::sync::Wait;
use std::sync::atomic::{AtomicU64, Ordering};
use vq_board::Pass;
use vq_poll::WatchedBoard;
use vq_timeline_stage::watched::{Actors, Scene, bell_of, hand_on};
use vq_timeline_stage::watched_steps::run_one;

/// Polls the tasks that are woken, and says how many have found their value so far.
fn count_met(pool: &mut LocalPool<Counted<'_>>, met: &AtomicU64) -> u64 {
    pool.run_until_stalled(100);
    met.load(Ordering::SeqCst)
}

/// Whether no task has found its value before the first batch is run, and each has after it and one ring.
fn both_are_woken(
    scene: &Scene,
    ring: &mut Pass,
    pool: &mut LocalPool<Counted<'_>>,
    met: &AtomicU64,
) -> bool
    requires scene { IsScene scene.now }
    requires ring { HasRun scene.now.board ring.old [] }
{
    count_met(pool, met) == 0
        && run_one(&scene.board, bell_of(scene), ring)
        && count_met(pool, met) == 2
}

/// Whether it is so of two tasks that wait for 2, once both batches are handed on.
#[tactic(auto, using(vq_timeline_stage::proofs::Cited::pass_kept))]
fn wake<R: RandomSource + AllocGlobal>(
    rt: &R,
    watched: WatchedBoard<'_>,
    scene: &Scene,
    actors: Actors,
) -> bool
    requires watched { IsWatched watched }
    requires plan { IsOfTwoBatches (plan_at watched) }
    requires board { watched.board.now ≡ scene.now.board }
    requires scene { IsScene scene.now }
    requires actors { AreHandedOn scene.now.board actors }
{
    let Actors {
        host,
        submitter,
        mut ring,
    } = actors;
    let met = AtomicU64::new(0);
    match pool_for(rt, watched, host, submitter, &met, (2, 2)) {
        Some(mut pool) => both_are_woken(scene, &mut ring, &mut pool, &met),
        None => false,
    }
}

/// The same with the steps that hand them on.
pub(crate) fn wakes_both<R: Wait + RandomSource + AllocGlobal>(
    rt: &R,
    watched: WatchedBoard<'_>,
    scene: &Scene,
    actors: Actors,
) -> bool
    requires watched { IsWatched watched }
    requires plan { IsOfTwoBatches (plan_at watched) }
    requires board { watched.board.now ≡ scene.now.board }
    requires scene { IsScene scene.now }
    requires actors { AreIdle scene.now.board actors }
{
    let mut actors = actors;
    hand_on(rt, scene, &mut actors) && wake(rt, watched, scene, actors)
}

#[test]
fn one_ring_wakes_each_task(rt: HostRuntime) {
    assert!(rt; is_so(&rt, Asked::WakesBoth, 1));
}
