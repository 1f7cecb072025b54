//! The steps of the queues' submitting threads: each hands its batch to the device.
ghost use Rattle.std.specs.Prelude.{◌≡◌, ◌<◌, true, length};
ghost use Rattle.vq_board_laws.specs.May.{MayRelease};
ghost use Rattle.vq_board.specs.Named.{plan_of, view};
ghost use Rattle.vq_board_example.specs.FillAndCopy.{IsFillAndCopy};
ghost use Rattle.vq_board_example.specs.Holders.{IsToRelease};

use std::sync::Wait;
use std::thread;
use vq_board::{Board, JobState, OpState, Pass};

/// Whether P's batch may be released: it is submitted, and its signal has this point.
fn may_release_fill(board: &Board, submitter: &mut Pass, point: u32) -> bool
    requires plan { IsFillAndCopy (plan_of board.now) }
    requires exists { point < length (plan_of board.now).ops }
    requires pass { IsToRelease board.now submitter.old 0 }
    ensures pass { IsToRelease board.now submitter.new 0 }
    ensures may { result ≡ true → MayRelease (plan_of board.now) (view submitter.new) 0 }
{
    let word = board.look(submitter, point);
    if !word.held || word.op != 0 {
        return false;
    }
    board.job_state(submitter, 0) == JobState::Submitted
}

/// P's submitting thread hands its batch on, as soon as it may.
pub(crate) fn release_fill<R: Wait>(rt: &R, board: &Board, submitter: &mut Pass, point: u32)
    requires plan { IsFillAndCopy (plan_of board.now) }
    requires exists { point < length (plan_of board.now).ops }
    requires pass { IsToRelease board.now submitter.old 0 }
{
    for _ in rt.forever() {
        if may_release_fill(board, submitter, point) {
            board.release(submitter, 0);
            return;
        }
        thread::yield_now();
    }
    unreachable!()
}

/// Whether Q's batch may be released: it is submitted, and the signal that it waits for is bound.
fn may_release_copy(board: &Board, submitter: &mut Pass) -> bool
    requires plan { IsFillAndCopy (plan_of board.now) }
    requires pass { IsToRelease board.now submitter.old 1 }
    ensures pass { IsToRelease board.now submitter.new 1 }
    ensures may { result ≡ true → MayRelease (plan_of board.now) (view submitter.new) 1 }
{
    if board.recall(submitter, 0) == OpState::Unbound {
        return false;
    }
    board.job_state(submitter, 1) == JobState::Submitted
}

/// Q's submitting thread hands its batch on, as soon as it may.
pub(crate) fn release_copy<R: Wait>(rt: &R, board: &Board, submitter: &mut Pass)
    requires plan { IsFillAndCopy (plan_of board.now) }
    requires pass { IsToRelease board.now submitter.old 1 }
{
    for _ in rt.forever() {
        if may_release_copy(board, submitter) {
            board.release(submitter, 1);
            return;
        }
        thread::yield_now();
    }
    unreachable!()
}
