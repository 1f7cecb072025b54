//! A wait that finds its value missing, and is polled again once it is woken.
ghost use Rattle.std.specs.Prelude.{◌≡◌, true, []};
ghost use Rattle.vq_board.specs.Named.{IsOf};
ghost use Rattle.vq_board_stage.specs.Holders.{HasReleased};
ghost use Rattle.vq_timeline_stage.specs.Acting.{HasRun};
ghost use Rattle.vq_timeline_stage.specs.TwoBatches.{IsOfTwoBatches};
ghost use Rattle.vq_poll.specs.Waiting.{CanWaitLent};
ghost use Rattle.vq_poll.specs.Watching.{IsWatched, plan_at};
ghost use Rattle.vq_timeline_stage.specs.Scenes.{AreIdle, IsScene};

use crate::asked::{Asked, is_so};
use futures::task::Poll;
use futures::test::MockTask;
use std::alloc::AllocGlobal;
use std::random::RandomSource;
use std::sync::Wait;
use vq_board::Pass;
use vq_poll::{Met, Pair, WaitMode, WaitPairs, WatchedBoard};
use vq_timeline_stage::watched::{Actors, Scene, bell_of, timeline_of};
use vq_timeline_stage::watched_steps::{hand_both_on, run_both, submit_both};

/// All steps after the submits.
fn run_all<R: Wait>(rt: &R, scene: &Scene, submitter: &mut Pass, ring: &mut Pass) -> bool
    requires scene { IsScene scene.now }
    requires submitter { HasReleased scene.now.board submitter.old 0 [] }
    requires ring { HasRun scene.now.board ring.old [] }
{
    hand_both_on(rt, &scene.board, timeline_of(scene), submitter)
        && run_both(&scene.board, bell_of(scene), ring)
}

/// Polls the wait, and says whether it goes on and nothing has woken its task.
fn rests(task: &MockTask, wait: &mut WaitPairs<'_>) -> bool
    requires { CanWaitLent wait.old }
    ensures { result ≡ true → CanWaitLent wait.new }
{
    task.poll(wait).is_pending() && !task.is_woken()
}

/// Polls the wait, where its task is woken, and says whether it finds the first pair reached, with 7.
fn is_met(task: &MockTask, wait: &mut WaitPairs<'_>) -> bool
    requires { CanWaitLent wait.old }
{
    task.is_woken() && matches!(task.poll(wait), Poll::Ready(Met { index: 0, value: 7 }))
}

/// Whether this wait rests, is woken by the steps after the submits, and then finds its value.
fn goes_on<R: Wait>(
    rt: &R,
    scene: &Scene,
    wait: &mut WaitPairs<'_>,
    task: &MockTask,
    submitter: &mut Pass,
    ring: &mut Pass,
) -> bool
    requires scene { IsScene scene.now }
    requires wait { CanWaitLent wait.old }
    requires submitter { HasReleased scene.now.board submitter.old 0 [] }
    requires ring { HasRun scene.now.board ring.old [] }
{
    rests(task, wait) && run_all(rt, scene, submitter, ring) && is_met(task, wait)
}

/// Whether a wait by this pass does, polled by this task.
#[tactic(auto, using(vq_timeline_stage::proofs::Cited::pairs_of_first, vq_timeline_stage::proofs::Cited::one_first))]
fn is_woken_by<R: Wait + AllocGlobal>(
    rt: &R,
    task: &MockTask,
    watched: WatchedBoard<'_>,
    host: &mut Pass,
    scene: &Scene,
    submitter: &mut Pass,
    ring: &mut Pass,
) -> bool
    requires watched { IsWatched watched }
    requires plan { IsOfTwoBatches (plan_at watched) }
    requires host { IsOf watched.board.now host.old }
    requires scene { IsScene scene.now }
    requires submitter { HasReleased scene.now.board submitter.old 0 [] }
    requires ring { HasRun scene.now.board ring.old [] }
{
    let pairs = [Pair { chain: 0, value: 3 }];
    match WaitPairs::new(rt.alloc(), watched, host, WaitMode::All, &pairs) {
        Ok(mut wait) => goes_on(rt, scene, &mut wait, task, submitter, ring),
        Err(_) => false,
    }
}

/// The same by a task of its own.
fn is_woken<R: Wait + RandomSource + AllocGlobal>(
    rt: &R,
    watched: WatchedBoard<'_>,
    host: &mut Pass,
    scene: &Scene,
    submitter: &mut Pass,
    ring: &mut Pass,
) -> bool
    requires watched { IsWatched watched }
    requires plan { IsOfTwoBatches (plan_at watched) }
    requires host { IsOf watched.board.now host.old }
    requires scene { IsScene scene.now }
    requires submitter { HasReleased scene.now.board submitter.old 0 [] }
    requires ring { HasRun scene.now.board ring.old [] }
{
    match MockTask::new(rt) {
        Ok(task) => is_woken_by(rt, &task, watched, host, scene, submitter, ring),
        Err(_) => false,
    }
}

/// Whether a wait that is polled after the submits alone does.
#[tactic(auto, using(vq_timeline_stage::proofs::Cited::pass_kept))]
pub(crate) fn wakes<R: Wait + RandomSource + AllocGlobal>(
    rt: &R,
    watched: WatchedBoard<'_>,
    scene: &Scene,
    actors: Actors,
) -> bool
    requires watched { IsWatched watched }
    requires plan { IsOfTwoBatches (plan_at watched) }
    requires board { watched.board.now ≡ scene.now.board }
    requires scene { IsScene scene.now }
    requires actors { AreIdle scene.now.board actors }
{
    let Actors {
        mut host,
        mut submitter,
        mut ring,
    } = actors;
    submit_both(&scene.board, &mut host);
    is_woken(rt, watched, &mut host, scene, &mut submitter, &mut ring)
}

#[test]
fn a_wait_is_woken_by_the_bell(rt: HostRuntime) {
    assert!(rt; is_so(&rt, Asked::Wakes, 1));
}
