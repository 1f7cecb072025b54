//! A wait for a value of a timeline as a future, in a thread of its own.
ghost use Rattle.std.specs.Prelude.{◌≡◌, [], ◌∷◌};
ghost use Rattle.vq_board.specs.Named.{plan_of, IsOf};
ghost use Rattle.vq_board_stage.specs.Holders.{HasSubmitted, HasReleased};
ghost use Rattle.vq_poll.specs.Watching.{IsWatched, plan_at};
ghost use Rattle.vq_timeline_stage.specs.Acting.{HasRunFirst};
ghost use Rattle.vq_timeline_stage.specs.Scenes.{IsScene};
ghost use Rattle.vq_timeline_stage.specs.TwoBatches.{IsOfTwoBatches};

use futures::executor::block_on;
use std::alloc::AllocGlobal;
use std::random::RandomSource;
use std::sync::Wait;
use std::thread::{Threads, join};
use vq_board::{Board, Pass};
use vq_poll::{Bell, Met, Pair, WaitMode, WaitOwned, WatchedBoard};
use vq_timeline_stage::host::submit;
use vq_timeline_stage::rings::run_second;
use vq_timeline_stage::watched::{Actors, Scene, bell_of, timeline_of};
use vq_timeline_stage::watched_steps::hand_second_on;

/// Wait: `block_on` polls the wait, and again each time that the bell of A has rung, until A has come to 3. The pass
/// comes back with the answer.
#[tactic(auto, using(vq_timeline_stage::proofs::Cited::pairs_of_first, vq_timeline_stage::proofs::Cited::one_first))]
fn wait_for_three<R: Wait + RandomSource + AllocGlobal>(
    rt: &R,
    watched: WatchedBoard<'_>,
    pass: Pass,
) -> Option<Met>
    requires watched { IsWatched watched }
    requires plan { IsOfTwoBatches (plan_at watched) }
    requires pass { IsOf watched.board.now pass }
{
    let pairs = [Pair { chain: 0, value: 3 }];
    let wait = WaitOwned::new(rt.alloc(), watched, pass, WaitMode::All, &pairs).ok()?;
    let (met, _pass) = block_on(rt, wait).ok()?;
    Some(met)
}

/// Signal: the second batch is run, which signals A with 7, and the bell is rung.
fn signal(board: &Board, bell: &Bell, ring: Pass) -> bool
    requires plan { IsOfTwoBatches (plan_of board.now) }
    requires ring { HasRunFirst board.now ring }
{
    let mut ring = ring;
    let is_made = run_second(board, &mut ring);
    bell.ring();
    is_made
}

/// Both, each in a thread of its own.
fn run<R: Threads + Wait + RandomSource + AllocGlobal + Sync>(
    rt: &R,
    watched: WatchedBoard<'_>,
    host: Pass,
    board: &Board,
    bell: &Bell,
    ring: Pass,
) -> (Option<Met>, bool)
    requires watched { IsWatched watched }
    requires waits { IsOfTwoBatches (plan_at watched) }
    requires host { IsOf watched.board.now host }
    requires plan { IsOfTwoBatches (plan_of board.now) }
    requires ring { HasRunFirst board.now ring }
{
    join(
        rt,
        move || -> Option<Met>
            requires watched { IsWatched watched }
            requires waits { IsOfTwoBatches (plan_at watched) }
            requires host { IsOf watched.board.now host }
        { wait_for_three(rt, watched, host) },
        move || -> bool
            requires plan { IsOfTwoBatches (plan_of board.now) }
            requires ring { HasRunFirst board.now ring }
        { signal(board, bell, ring) },
    )
}

/// The second batch is submitted and handed on, and then the threads are started. It says what the wait found.
#[tactic(auto, using(vq_timeline_stage::proofs::Cited::pass_kept))]
pub(crate) fn wait<R: Threads + Wait + RandomSource + AllocGlobal + Sync>(
    rt: &R,
    watched: WatchedBoard<'_>,
    scene: &Scene,
    actors: Actors,
) -> Option<Met>
    requires watched { IsWatched watched }
    requires plan { IsOfTwoBatches (plan_at watched) }
    requires board { watched.board.now ≡ scene.now.board }
    requires scene { IsScene scene.now }
    requires host { HasSubmitted scene.now.board actors.host 1 }
    requires submitter { HasReleased scene.now.board actors.submitter 0 (0 ∷ []) }
    requires ring { HasRunFirst scene.now.board actors.ring }
{
    let Actors {
        mut host,
        mut submitter,
        ring,
    } = actors;
    let board = &scene.board;
    submit(board, &mut host, 1);
    if !hand_second_on(rt, board, timeline_of(scene), &mut submitter) {
        return None;
    }
    match run(rt, watched, host, board, bell_of(scene), ring) {
        (met, true) => met,
        (_, false) => None,
    }
}
