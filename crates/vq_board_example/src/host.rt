//! The host's steps: it submits both batches, and once they are finished it reads the timeline.
ghost use Rattle.std.specs.Prelude.{◌≡◌, ◌<◌, ◌+◌, true};
ghost use Rattle.vq_board.specs.Named.{plan_of};
ghost use Rattle.vq_board_example.specs.FillAndCopy.{IsFillAndCopy};
ghost use Rattle.vq_board_example.specs.Holders.{HasSubmitted, KnowsFinished, HasRead};

use std::sync::Wait;
use std::thread;
use vq_board::{Board, JobState, Pass};
use vq_model::plan::Answer;

/// The host submits the next batch.
pub(crate) fn submit(board: &Board, host: &mut Pass, job: u32)
    requires plan { IsFillAndCopy (plan_of board.now) }
    requires batch { job < 2 }
    requires host { HasSubmitted board.now host.old job }
    ensures { HasSubmitted board.now host.new (job + 1) }
{
    board.submit(host, job);
}

/// Whether the host finds both batches finished.
fn are_finished(board: &Board, host: &mut Pass) -> bool
    requires plan { IsFillAndCopy (plan_of board.now) }
    requires host { HasSubmitted board.now host.old 2 }
    ensures host { HasSubmitted board.now host.new 2 }
    ensures finished { result ≡ true → KnowsFinished host.new 2 }
{
    for job in 0..2u32 {
        if board.job_state(host, job) != JobState::Finished {
            return false;
        }
    }
    true
}

/// The host looks until both batches are finished.
fn await_batches<R: Wait>(rt: &R, board: &Board, host: &mut Pass)
    requires plan { IsFillAndCopy (plan_of board.now) }
    requires host { HasSubmitted board.now host.old 2 }
    ensures host { HasSubmitted board.now host.new 2 }
    ensures finished { KnowsFinished host.new 2 }
{
    for _ in rt.forever() {
        if are_finished(board, host) {
            return;
        }
        thread::yield_now();
    }
    unreachable!()
}

/// The host reads the timeline once both batches are finished. The value read is 1, since the signal is
/// made.
fn read_value(board: &Board, host: &mut Pass) -> u64
    requires plan { IsFillAndCopy (plan_of board.now) }
    requires host { HasSubmitted board.now host.old 2 }
    requires finished { KnowsFinished host.old 2 }
    ensures { HasRead board.now host.new result }
{
    let value = 1;
    board.start(host, 2);
    board.answer(host, 2, Answer::Value(value));
    board.finish(host, 2);
    value
}

/// The host waits for both batches, and reads the timeline.
pub(crate) fn read<R: Wait>(rt: &R, board: &Board, host: &mut Pass) -> u64
    requires plan { IsFillAndCopy (plan_of board.now) }
    requires host { HasSubmitted board.now host.old 2 }
    ensures { HasRead board.now host.new result }
{
    await_batches(rt, board, host);
    read_value(board, host)
}
