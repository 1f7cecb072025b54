//! Two threads: in the one A is waited for, by one wait or by two tasks of one executor; the other makes the ring's
//! steps and rings the bell.
ghost use Rattle.std.specs.Prelude.{◌≡◌, []};
ghost use Rattle.vq_board.specs.Named.{plan_of, IsOf};
ghost use Rattle.vq_timeline_stage.specs.Acting.{HasRun};
ghost use Rattle.vq_timeline_stage.specs.TwoBatches.{IsOfTwoBatches};
ghost use Rattle.vq_poll.specs.Watching.{IsWatched, plan_at};
ghost use Rattle.vq_timeline_stage.specs.Scenes.{AreHandedOn, AreIdle, IsScene};

use crate::asked::{Asked, is_so};
use crate::pools::pool_for;
use crate::waits::given_back;
use std::alloc::AllocGlobal;
use std::random::RandomSource;
use std::sync::Wait;
use std::sync::atomic::{AtomicU64, Ordering};
use std::thread::{Threads, join};
use vq_board::{Board, Pass};
use vq_poll::{Bell, Met, Pair, WatchedBoard};
use vq_timeline_stage::watched::{Actors, Scene, bell_of, hand_on};
use vq_timeline_stage::watched_steps::run_both;

/// What waits for A.
#[derive(Clone, Copy)]
pub(crate) enum Waiting {
    /// One wait.
    Alone,
    /// Two tasks of one executor.
    Tasks,
}

/// Whether a wait for 3 finds the first pair reached, with 7.
#[tactic(auto, using(vq_timeline_stage::proofs::Cited::one_first))]
fn finds_seven<R: Wait + RandomSource + AllocGlobal>(
    rt: &R,
    watched: WatchedBoard<'_>,
    pass: Pass,
) -> bool
    requires watched { IsWatched watched }
    requires plan { IsOfTwoBatches (plan_at watched) }
    requires pass { IsOf watched.board.now pass }
{
    let pairs = [Pair { chain: 0, value: 3 }];
    match given_back(rt, watched, pass, &pairs) {
        Some((met, _)) => met == Met { index: 0, value: 7 },
        None => false,
    }
}

/// Runs two tasks to their end, which wait for 3 and for 7. It says whether both have found their value.
fn find_both<R: Wait + RandomSource + AllocGlobal>(
    rt: &R,
    watched: WatchedBoard<'_>,
    host: Pass,
    submitter: Pass,
) -> bool
    requires watched { IsWatched watched }
    requires plan { IsOfTwoBatches (plan_at watched) }
    requires host { IsOf watched.board.now host }
    requires submitter { IsOf watched.board.now submitter }
{
    let met = AtomicU64::new(0);
    match pool_for(rt, watched, host, submitter, &met, (3, 7)) {
        Some(mut pool) => {
            pool.run(rt);
            met.load(Ordering::SeqCst) == 2
        }
        None => false,
    }
}

/// Whether what waits comes to its end.
fn ends<R: Wait + RandomSource + AllocGlobal>(
    rt: &R,
    watched: WatchedBoard<'_>,
    host: Pass,
    submitter: Pass,
    waiting: Waiting,
) -> bool
    requires watched { IsWatched watched }
    requires plan { IsOfTwoBatches (plan_at watched) }
    requires host { IsOf watched.board.now host }
    requires submitter { IsOf watched.board.now submitter }
{
    match waiting {
        Waiting::Alone => finds_seven(rt, watched, host),
        Waiting::Tasks => find_both(rt, watched, host, submitter),
    }
}

/// The steps of the ring, with its pass.
fn run_ring(board: &Board, bell: &Bell, ring: Pass) -> bool
    requires plan { IsOfTwoBatches (plan_of board.now) }
    requires ring { HasRun board.now ring [] }
{
    let mut ring = ring;
    run_both(board, bell, &mut ring)
}

/// Both, each in a thread of its own.
fn wait_and_run<R: Threads + Wait + RandomSource + AllocGlobal + Sync>(
    rt: &R,
    watched: WatchedBoard<'_>,
    host: Pass,
    submitter: Pass,
    waiting: Waiting,
    board: &Board,
    bell: &Bell,
    ring: Pass,
) -> (bool, bool)
    requires watched { IsWatched watched }
    requires waits { IsOfTwoBatches (plan_at watched) }
    requires host { IsOf watched.board.now host }
    requires submitter { IsOf watched.board.now submitter }
    requires plan { IsOfTwoBatches (plan_of board.now) }
    requires ring { HasRun board.now ring [] }
{
    join(
        rt,
        move || -> bool
            requires watched { IsWatched watched }
            requires waits { IsOfTwoBatches (plan_at watched) }
            requires host { IsOf watched.board.now host }
            requires submitter { IsOf watched.board.now submitter }
        { ends(rt, watched, host, submitter, waiting) },
        move || -> bool
            requires plan { IsOfTwoBatches (plan_of board.now) }
            requires ring { HasRun board.now ring [] }
        { run_ring(board, bell, ring) },
    )
}

/// Both on this board, where the batches are handed on.
#[tactic(auto, using(vq_timeline_stage::proofs::Cited::pass_kept))]
fn end_both<R: Threads + Wait + RandomSource + AllocGlobal + Sync>(
    rt: &R,
    watched: WatchedBoard<'_>,
    scene: &Scene,
    actors: Actors,
    waiting: Waiting,
) -> bool
    requires watched { IsWatched watched }
    requires plan { IsOfTwoBatches (plan_at watched) }
    requires board { watched.board.now ≡ scene.now.board }
    requires scene { IsScene scene.now }
    requires actors { AreHandedOn scene.now.board actors }
{
    let Actors {
        host,
        submitter,
        ring,
    } = actors;
    let (board, bell) = (&scene.board, bell_of(scene));
    wait_and_run(rt, watched, host, submitter, waiting, board, bell, ring) == (true, true)
}

/// The submits, and all that hands the batches on and binds their signals, and then the two threads. It says whether
/// what waits finds its value, and the steps are made.
pub(crate) fn ends_in_threads<R: Threads + Wait + RandomSource + AllocGlobal + Sync>(
    rt: &R,
    watched: WatchedBoard<'_>,
    scene: &Scene,
    actors: Actors,
    waiting: Waiting,
) -> bool
    requires watched { IsWatched watched }
    requires plan { IsOfTwoBatches (plan_at watched) }
    requires board { watched.board.now ≡ scene.now.board }
    requires scene { IsScene scene.now }
    requires actors { AreIdle scene.now.board actors }
{
    let mut actors = actors;
    hand_on(rt, scene, &mut actors) && end_both(rt, watched, scene, actors, waiting)
}

#[test]
fn no_wait_sleeps_on(rt: HostRuntime) {
    assert!(rt; is_so(&rt, Asked::Ends(Waiting::Alone), 10_000));
}

#[test]
fn no_task_sleeps_on(rt: HostRuntime) {
    assert!(rt; is_so(&rt, Asked::Ends(Waiting::Tasks), 10_000));
}
