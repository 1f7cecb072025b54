//! The steps of the passes.
ghost use Rattle.std.specs.Prelude.{◌≡◌, true, [], ◌∷◌};
ghost use Rattle.vq_board.specs.Named.{plan_of};
ghost use Rattle.vq_board_stage.specs.Holders.{HasSubmitted, HasReleased};
ghost use Rattle.vq_timeline_stage.specs.TwoBatches.{IsOfTwoBatches};
ghost use Rattle.vq_timeline_stage.specs.Acting.{HasRun, HasRunFirst};
ghost use Rattle.vq_timeline_stage.specs.Locked.{IsFirstAt};

use crate::host::submit;
use crate::pointing::{gets_point, is_bound};
use crate::rings::{run_first, run_second};
use crate::submitting::{release_first, release_second};
use std::sync::Wait;
use vq_board::{Board, Pass};
use vq_poll::Bell;
use vq_timeline::LockedTimeline;

/// The host submits both batches.
pub fn submit_both(board: &Board, host: &mut Pass)
    requires plan { IsOfTwoBatches (plan_of board.now) }
    requires host { HasSubmitted board.now host.old 0 }
    ensures { HasSubmitted board.now host.new 2 }
{
    submit(board, host, 0);
    submit(board, host, 1);
}

/// The first batch gets its point, is handed on, and its signal is pending.
fn hand_first_on<R: Wait>(
    rt: &R,
    board: &Board,
    timeline: &LockedTimeline,
    submitter: &mut Pass,
) -> bool
    requires plan { IsOfTwoBatches (plan_of board.now) }
    requires timeline { IsFirstAt board.now timeline.now }
    requires submitter { HasReleased board.now submitter.old 0 [] }
    ensures { result ≡ true → HasReleased board.now submitter.new 0 (0 ∷ []) }
{
    gets_point(rt, board, timeline, 0)
        && release_first(board, submitter)
        && is_bound(rt, board, timeline, 0)
}

/// And so the second.
pub fn hand_second_on<R: Wait>(
    rt: &R,
    board: &Board,
    timeline: &LockedTimeline,
    submitter: &mut Pass,
) -> bool
    requires plan { IsOfTwoBatches (plan_of board.now) }
    requires timeline { IsFirstAt board.now timeline.now }
    requires submitter { HasReleased board.now submitter.old 0 (0 ∷ []) }
    ensures { result ≡ true → HasReleased board.now submitter.new 0 (1 ∷ 0 ∷ []) }
{
    gets_point(rt, board, timeline, 1)
        && release_second(board, submitter)
        && is_bound(rt, board, timeline, 1)
}

/// Both batches, which are submitted, are handed on, and their signals are pending.
pub fn hand_both_on<R: Wait>(
    rt: &R,
    board: &Board,
    timeline: &LockedTimeline,
    submitter: &mut Pass,
) -> bool
    requires plan { IsOfTwoBatches (plan_of board.now) }
    requires timeline { IsFirstAt board.now timeline.now }
    requires submitter { HasReleased board.now submitter.old 0 [] }
    ensures { result ≡ true → HasReleased board.now submitter.new 0 (1 ∷ 0 ∷ []) }
{
    hand_first_on(rt, board, timeline, submitter) && hand_second_on(rt, board, timeline, submitter)
}

/// The ring runs the first batch, and rings the bell after its signal.
pub fn run_one(board: &Board, bell: &Bell, ring: &mut Pass) -> bool
    requires plan { IsOfTwoBatches (plan_of board.now) }
    requires ring { HasRun board.now ring.old [] }
    ensures { result ≡ true → HasRunFirst board.now ring.new }
{
    let first = run_first(board, ring);
    bell.ring();
    first
}

/// The ring runs both batches, and rings the bell after each signal.
pub fn run_both(board: &Board, bell: &Bell, ring: &mut Pass) -> bool
    requires plan { IsOfTwoBatches (plan_of board.now) }
    requires ring { HasRun board.now ring.old [] }
{
    if !run_one(board, bell, ring) {
        return false;
    }
    let second = run_second(board, ring);
    bell.ring();
    second
}
