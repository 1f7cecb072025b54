//! The batches that the queue's submitting thread hands on.
ghost use Rattle.std.specs.Prelude.{◌≡◌, true, [], ◌∷◌, IfSome};
ghost use Rattle.vq_board.specs.Named.{plan_of};
ghost use Rattle.vq_board_stage.specs.Holders.{HasReleased};
ghost use Rattle.vq_board_stage.specs.Dealing.{AllFresh};
ghost use Rattle.vq_timeline_stage.specs.TwoBatches.{IsOfTwoBatches};

use vq_board::{Board, JobState, Pass, Role};
use vq_board_stage::passes::dealt;
use vq_board_stage::submitting::carrying;

/// The pass of the submitting thread.
pub fn submitter(board: &Board, submits: &mut Vec<Pass>) -> Option<Pass>
    requires { AllFresh board.now submits.old.items }
    ensures { IfSome result (λ x. HasReleased board.now x 0 []) }
{
    dealt(board, submits, Role::Submit(0))
}

/// The first batch is handed on, whose signal has point 0. It says whether all that was found.
#[tactic(auto, using(crate::proofs::Asks::knows_so_far))]
pub fn release_first(board: &Board, submitter: &mut Pass) -> bool
    requires plan { IsOfTwoBatches (plan_of board.now) }
    requires earlier { HasReleased board.now submitter.old 0 [] }
    ensures { result ≡ true → HasReleased board.now submitter.new 0 (0 ∷ []) }
{
    if board.look(submitter, 0) != carrying(0, 0, false) {
        return false;
    }
    if board.job_state(submitter, 0) != JobState::Submitted {
        return false;
    }
    board.release(submitter, 0);
    true
}

/// The second batch is handed on, whose signal has point 1.
#[tactic(auto, using(crate::proofs::Asks::knows_so_far))]
pub fn release_second(board: &Board, submitter: &mut Pass) -> bool
    requires plan { IsOfTwoBatches (plan_of board.now) }
    requires earlier { HasReleased board.now submitter.old 0 (0 ∷ []) }
    ensures { result ≡ true → HasReleased board.now submitter.new 0 (1 ∷ 0 ∷ []) }
{
    if board.look(submitter, 1) != carrying(1, 0, false) {
        return false;
    }
    if board.job_state(submitter, 1) != JobState::Submitted {
        return false;
    }
    board.release(submitter, 1);
    true
}
