//! The look at the end of a run: the host's pass sees one job after another finished.
//!
//! Source: this project's own.
ghost use Rattle.std.specs.Prelude.{◌≡◌, ◌<◌, ◌+◌, IsTrue, IsFalse, length};
ghost use Rattle.vq_board.specs.Named.{plan_of, view};
ghost use Rattle.vq_board_run.specs.Answered.{FindsUnfinished, HasSeen};

use vq_board::{Board, JobState, Pass};

/// Whether the host's pass, which has seen the jobs before this one finished, sees this one finished too. It tells
/// nothing.
pub fn sees_finished(board: &Board, pass: &mut Pass, job: u32) -> bool
    requires before { HasSeen board.now pass.old job }
    requires exists { job < length (plan_of board.now).jobs }
    ensures finished { IsTrue result → HasSeen board.now pass.new (job + 1) }
    ensures unfinished { IsFalse result → HasSeen board.now pass.new job }
    ensures cause { IsFalse result → FindsUnfinished pass.old pass.new job }
    ensures told { (view pass.new).told ≡ (view pass.old).told }
{
    board.job_state(pass, job) == JobState::Finished
}
