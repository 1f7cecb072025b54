//! What waits answer after the steps of both batches.
ghost use Rattle.std.specs.Prelude.{◌≡◌};
ghost use Rattle.vq_board.specs.Named.{IsOf};
ghost use Rattle.vq_timeline_stage.specs.TwoBatches.{IsOfTwoBatches};
ghost use Rattle.vq_poll.specs.Watching.{IsWatched, plan_at};
ghost use Rattle.vq_timeline_stage.specs.Scenes.{AreIdle, IsScene};

use crate::asked::{Asked, is_so};
use crate::waits::{blocked, collected, given_back, polled};
use futures::task::Poll;
use std::alloc::AllocGlobal;
use std::random::RandomSource;
use std::sync::Wait;
use vq_board::Pass;
use vq_poll::{Met, Pair, WaitMode, WatchedBoard};
use vq_timeline_stage::watched::{Actors, Scene, make_all, timeline_of};

/// What a wait with a lent pass answers.
#[derive(Clone, Copy)]
pub(crate) enum Answer {
    /// All pairs are found reached in one poll.
    All,
    /// One pair is found reached, and the one before it isn't.
    One,
    /// One pair isn't reached, so all aren't.
    Pending,
    /// A thread that blocks gets the value.
    Blocked,
    /// Each pair arrives once.
    Arrived,
}

/// A pair of A.
fn of_a(value: u64) -> Pair
    ensures { result ≡ record { chain = 0; value = value } }
{
    Pair { chain: 0, value }
}

/// Whether one poll finds this pair reached, with 7.
fn is_met(polled: Option<Poll<Met>>, index: u32) -> bool {
    match polled {
        Some(Poll::Ready(met)) => met == Met { index, value: 7 },
        _ => false,
    }
}

#[tactic(auto, using(vq_timeline_stage::proofs::Cited::one_first))]
fn all_is_met<R: RandomSource + AllocGlobal>(
    rt: &R,
    watched: WatchedBoard<'_>,
    host: &mut Pass,
) -> bool
    requires watched { IsWatched watched }
    requires plan { IsOfTwoBatches (plan_at watched) }
    requires host { IsOf watched.board.now host.old }
{
    let pairs = [of_a(3)];
    is_met(polled(rt, watched, host, WaitMode::All, &pairs), 0)
}

#[tactic(auto, using(vq_timeline_stage::proofs::Cited::two_first))]
fn one_is_met<R: RandomSource + AllocGlobal>(
    rt: &R,
    watched: WatchedBoard<'_>,
    host: &mut Pass,
) -> bool
    requires watched { IsWatched watched }
    requires plan { IsOfTwoBatches (plan_at watched) }
    requires host { IsOf watched.board.now host.old }
{
    let pairs = [of_a(9), of_a(2)];
    is_met(polled(rt, watched, host, WaitMode::Any, &pairs), 1)
}

#[tactic(auto, using(vq_timeline_stage::proofs::Cited::two_first))]
fn is_pending<R: RandomSource + AllocGlobal>(
    rt: &R,
    watched: WatchedBoard<'_>,
    host: &mut Pass,
) -> bool
    requires watched { IsWatched watched }
    requires plan { IsOfTwoBatches (plan_at watched) }
    requires host { IsOf watched.board.now host.old }
{
    let pairs = [of_a(2), of_a(9)];
    matches!(
        polled(rt, watched, host, WaitMode::All, &pairs),
        Some(Poll::Pending)
    )
}

#[tactic(auto, using(vq_timeline_stage::proofs::Cited::one_first))]
fn blocks<R: Wait + RandomSource + AllocGlobal>(
    rt: &R,
    watched: WatchedBoard<'_>,
    host: &mut Pass,
) -> bool
    requires watched { IsWatched watched }
    requires plan { IsOfTwoBatches (plan_at watched) }
    requires host { IsOf watched.board.now host.old }
{
    let pairs = [of_a(3)];
    blocked(rt, watched, host, WaitMode::All, &pairs) == Some(Met { index: 0, value: 7 })
}

/// Whether these are the items of both pairs.
fn are_both(items: Option<Vec<Met>>) -> bool {
    match items {
        Some(items) => {
            items.as_slice() == [Met { index: 0, value: 7 }, Met { index: 1, value: 7 }].as_slice()
        }
        None => false,
    }
}

#[tactic(auto, using(vq_timeline_stage::proofs::Cited::two_first))]
fn arrive<R: Wait + RandomSource + AllocGlobal>(
    rt: &R,
    watched: WatchedBoard<'_>,
    host: &mut Pass,
) -> bool
    requires watched { IsWatched watched }
    requires plan { IsOfTwoBatches (plan_at watched) }
    requires host { IsOf watched.board.now host.old }
{
    let pairs = [of_a(7), of_a(2)];
    are_both(collected(rt, watched, host, &pairs))
}

/// Whether a wait by this pass answers so.
fn answers<R: Wait + RandomSource + AllocGlobal>(
    rt: &R,
    watched: WatchedBoard<'_>,
    host: &mut Pass,
    answer: Answer,
) -> bool
    requires watched { IsWatched watched }
    requires plan { IsOfTwoBatches (plan_at watched) }
    requires host { IsOf watched.board.now host.old }
{
    match answer {
        Answer::All => all_is_met(rt, watched, host),
        Answer::One => one_is_met(rt, watched, host),
        Answer::Pending => is_pending(rt, watched, host),
        Answer::Blocked => blocks(rt, watched, host),
        Answer::Arrived => arrive(rt, watched, host),
    }
}

/// Whether it does after all steps.
#[tactic(auto, using(vq_timeline_stage::proofs::Cited::pass_kept))]
pub(crate) fn is_answered<R: Wait + RandomSource + AllocGlobal>(
    rt: &R,
    watched: WatchedBoard<'_>,
    scene: &Scene,
    actors: Actors,
    answer: Answer,
) -> bool
    requires watched { IsWatched watched }
    requires plan { IsOfTwoBatches (plan_at watched) }
    requires board { watched.board.now ≡ scene.now.board }
    requires scene { IsScene scene.now }
    requires actors { AreIdle scene.now.board actors }
{
    let mut actors = actors;
    make_all(rt, scene, &mut actors) && answers(rt, watched, &mut actors.host, answer)
}

#[test]
fn waits_after_all_steps_answer_at_once(rt: HostRuntime) {
    let mut all = true;
    for answer in [Answer::All, Answer::One, Answer::Pending] {
        all = is_so(&rt, Asked::Answers(answer), 1) && all;
    }
    assert!(rt; all);
}

#[test]
fn a_thread_that_blocks_gets_the_value(rt: HostRuntime) {
    assert!(rt; is_so(&rt, Asked::Answers(Answer::Blocked), 1));
}

#[test]
fn each_pair_arrives_once(rt: HostRuntime) {
    assert!(rt; is_so(&rt, Asked::Answers(Answer::Arrived), 1));
}

/// Whether a wait that owns the pass finds 7, and its pass then reads 7.
#[tactic(auto, using(vq_timeline_stage::proofs::Cited::one_first, vq_timeline_stage::proofs::Cited::pass_back))]
fn reads_on<R: Wait + RandomSource + AllocGlobal>(
    rt: &R,
    watched: WatchedBoard<'_>,
    scene: &Scene,
    host: Pass,
) -> bool
    requires watched { IsWatched watched }
    requires plan { IsOfTwoBatches (plan_at watched) }
    requires board { watched.board.now ≡ scene.now.board }
    requires scene { IsScene scene.now }
    requires host { IsOf watched.board.now host }
{
    let pairs = [of_a(3)];
    match given_back(rt, watched, host, &pairs) {
        Some((met, mut host)) => {
            met == Met { index: 0, value: 7 }
                && timeline_of(scene).read(&scene.board, &mut host) == 7
        }
        None => false,
    }
}

/// Whether it does so after all steps.
#[tactic(auto, using(vq_timeline_stage::proofs::Cited::pass_kept))]
pub(crate) fn gives_back<R: Wait + RandomSource + AllocGlobal>(
    rt: &R,
    watched: WatchedBoard<'_>,
    scene: &Scene,
    actors: Actors,
) -> bool
    requires watched { IsWatched watched }
    requires plan { IsOfTwoBatches (plan_at watched) }
    requires board { watched.board.now ≡ scene.now.board }
    requires scene { IsScene scene.now }
    requires actors { AreIdle scene.now.board actors }
{
    let mut actors = actors;
    make_all(rt, scene, &mut actors) && reads_on(rt, watched, scene, actors.host)
}

#[test]
fn a_wait_gives_its_pass_back(rt: HostRuntime) {
    assert!(rt; is_so(&rt, Asked::GivesBack, 1));
}
