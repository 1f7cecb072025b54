//! The host's submissions, and the batches that the submitting threads hand on.
ghost use Rattle.std.specs.Prelude.{◌≡◌, ◌<◌, ◌+◌, true, [], ◌∷◌};
ghost use Rattle.vq_board.specs.Named.{plan_of};
ghost use Rattle.vq_board_stage.specs.Holders.{HasSubmitted, HasReleased};
ghost use Rattle.vq_board_stage.specs.ThreeSignals.{IsOfThreeSignals};

use vq_board::{Board, JobState, OpState, Pass};
use vq_point::PointWord;

/// The host submits the next batch.
pub fn submit(board: &Board, host: &mut Pass, j: u32)
    requires plan { IsOfThreeSignals (plan_of board.now) }
    requires one_of { j < 3 }
    requires earlier { HasSubmitted board.now host.old j }
    ensures { HasSubmitted board.now host.new (j + 1) }
{
    board.submit(host, j);
}

/// What a point's word says that carries the operation.
pub fn carrying(op: u32, refs: u16, signaled: bool) -> PointWord
    ensures { result ≡ record { op = op; refs = refs; signaled = signaled; held = true } }
{
    PointWord {
        op,
        refs,
        signaled,
        held: true,
    }
}

/// P's thread hands its first batch on, whose signal has point 0. It says whether it found all that.
#[tactic(auto, using(crate::proofs::Asks::knows_so_far))]
pub fn release_first(board: &Board, submitter: &mut Pass) -> bool
    requires plan { IsOfThreeSignals (plan_of board.now) }
    requires earlier { HasReleased board.now submitter.old 0 [] }
    ensures { result ≡ true → HasReleased board.now submitter.new 0 (0 ∷ []) }
{
    if board.look(submitter, 0) != carrying(0, 0, false) {
        return false;
    }
    if board.job_state(submitter, 0) != JobState::Submitted {
        return false;
    }
    board.release(submitter, 0);
    true
}

/// P's thread hands its second batch on, whose signal has point 1.
#[tactic(auto, using(crate::proofs::Asks::knows_so_far))]
pub fn release_second(board: &Board, submitter: &mut Pass) -> bool
    requires plan { IsOfThreeSignals (plan_of board.now) }
    requires earlier { HasReleased board.now submitter.old 0 (0 ∷ []) }
    ensures { result ≡ true → HasReleased board.now submitter.new 0 (2 ∷ 0 ∷ []) }
{
    if board.look(submitter, 1) != carrying(1, 0, false) {
        return false;
    }
    if board.job_state(submitter, 2) != JobState::Submitted {
        return false;
    }
    board.release(submitter, 2);
    true
}

/// Q's thread hands its batch on, which waits for operation 0; that is bound to point 0.
#[tactic(auto, using(crate::proofs::Asks::knows_so_far))]
pub fn release_waiting(board: &Board, submitter: &mut Pass) -> bool
    requires plan { IsOfThreeSignals (plan_of board.now) }
    requires earlier { HasReleased board.now submitter.old 1 [] }
    ensures { result ≡ true → HasReleased board.now submitter.new 1 (1 ∷ []) }
{
    if board.recall(submitter, 0) != (OpState::Bound { point: 0 }) {
        return false;
    }
    if board.job_state(submitter, 1) != JobState::Submitted {
        return false;
    }
    board.release(submitter, 1);
    true
}
