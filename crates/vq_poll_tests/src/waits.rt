//! Waits for values of A, by the pass of the host.
ghost use Rattle.std.specs.Prelude.{◌≡◌, IfSome};
ghost use Rattle.vq_board.specs.Named.{IsOf};
ghost use Rattle.vq_timeline_stage.specs.TwoBatches.{IsOfTwoBatches};
ghost use Rattle.vq_poll.specs.Watching.{IsWatched, plan_at};
ghost use Rattle.vq_timeline_stage.specs.Scenes.{AreOfFirst};

use futures::StreamExt;
use futures::executor::block_on;
use futures::task::Poll;
use futures::test::MockTask;
use std::alloc::{AllocGlobal, Global};
use std::random::RandomSource;
use std::sync::Wait;
use vq_board::Pass;
use vq_poll::{Arrivals, Met, Pair, WaitMode, WaitOwned, WaitPairs, WatchedBoard};

/// What a wait answers this task in one poll.
#[tactic(auto, using(vq_timeline_stage::proofs::Cited::pairs_of_first))]
fn polled_by(
    alloc: Global,
    task: &MockTask,
    watched: WatchedBoard<'_>,
    host: &mut Pass,
    mode: WaitMode,
    pairs: &[Pair],
) -> Option<Poll<Met>>
    requires watched { IsWatched watched }
    requires plan { IsOfTwoBatches (plan_at watched) }
    requires host { IsOf watched.board.now host.old }
    requires pairs { AreOfFirst pairs.now }
{
    match WaitPairs::new(alloc, watched, host, mode, pairs) {
        Ok(mut wait) => Some(task.poll(&mut wait)),
        Err(_) => None,
    }
}

/// What a wait answers in one poll.
pub fn polled<R: RandomSource + AllocGlobal>(
    rt: &R,
    watched: WatchedBoard<'_>,
    host: &mut Pass,
    mode: WaitMode,
    pairs: &[Pair],
) -> Option<Poll<Met>>
    requires watched { IsWatched watched }
    requires plan { IsOfTwoBatches (plan_at watched) }
    requires host { IsOf watched.board.now host.old }
    requires pairs { AreOfFirst pairs.now }
{
    match MockTask::new(rt) {
        Ok(task) => polled_by(rt.alloc(), &task, watched, host, mode, pairs),
        Err(_) => None,
    }
}

/// What `block_on` answers of a wait with a lent pass.
#[tactic(auto, using(vq_timeline_stage::proofs::Cited::pairs_of_first))]
pub fn blocked<R: Wait + RandomSource + AllocGlobal>(
    rt: &R,
    watched: WatchedBoard<'_>,
    host: &mut Pass,
    mode: WaitMode,
    pairs: &[Pair],
) -> Option<Met>
    requires watched { IsWatched watched }
    requires plan { IsOfTwoBatches (plan_at watched) }
    requires host { IsOf watched.board.now host.old }
    requires pairs { AreOfFirst pairs.now }
{
    match WaitPairs::new(rt.alloc(), watched, host, mode, pairs) {
        Ok(wait) => block_on(rt, wait).ok(),
        Err(_) => None,
    }
}

/// What arrives, to the end.
#[tactic(auto, using(vq_timeline_stage::proofs::Cited::pairs_of_first))]
pub fn collected<R: Wait + RandomSource + AllocGlobal>(
    rt: &R,
    watched: WatchedBoard<'_>,
    host: &mut Pass,
    pairs: &[Pair],
) -> Option<Vec<Met>>
    requires watched { IsWatched watched }
    requires plan { IsOfTwoBatches (plan_at watched) }
    requires host { IsOf watched.board.now host.old }
    requires pairs { AreOfFirst pairs.now }
{
    match Arrivals::new(rt.alloc(), watched, host, pairs) {
        Ok(arrivals) => block_on(rt, arrivals.collect(rt.alloc())).ok()?.ok(),
        Err(_) => None,
    }
}

/// What `block_on` answers of a wait for A that owns its pass: the pass comes back.
#[tactic(auto, using(vq_timeline_stage::proofs::Cited::pairs_of_first))]
pub fn given_back<R: Wait + RandomSource + AllocGlobal>(
    rt: &R,
    watched: WatchedBoard<'_>,
    pass: Pass,
    pairs: &[Pair],
) -> Option<(Met, Pass)>
    requires watched { IsWatched watched }
    requires plan { IsOfTwoBatches (plan_at watched) }
    requires pass { IsOf watched.board.now pass }
    requires pairs { AreOfFirst pairs.now }
    ensures { IfSome result (λ o. IsOf watched.entry.board.now o.1) }
{
    match WaitOwned::new(rt.alloc(), watched, pass, WaitMode::All, pairs) {
        Ok(wait) => block_on(rt, wait).ok(),
        Err(_) => None,
    }
}
