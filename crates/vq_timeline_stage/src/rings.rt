//! The steps of the ring's pass.
ghost use Rattle.std.specs.Prelude.{◌≡◌, true, [], ◌∷◌, IfSome};
ghost use Rattle.vq_board.specs.Named.{plan_of};
ghost use Rattle.vq_board_stage.specs.Dealing.{AllFresh};
ghost use Rattle.vq_timeline_stage.specs.TwoBatches.{IsOfTwoBatches};
ghost use Rattle.vq_timeline_stage.specs.Acting.{HasRun, HasRunFirst, IsToSignal};

use vq_board::{Board, JobState, Pass, Role};
use vq_board_stage::passes::dealt;

/// The pass of the ring.
pub fn ring(board: &Board, rings: &mut Vec<Pass>) -> Option<Pass>
    requires { AllFresh board.now rings.old.items }
    ensures { IfSome result (λ x. HasRun board.now x []) }
{
    dealt(board, rings, Role::Ring(0))
}

/// The ring starts the first batch, where it is released.
#[tactic(auto, using(crate::proofs::Asks::needs_nothing, crate::proofs::Asks::knows_so_far))]
fn start_first(board: &Board, ring: &mut Pass) -> bool
    requires plan { IsOfTwoBatches (plan_of board.now) }
    requires ring { HasRun board.now ring.old [] }
    ensures { result ≡ true → IsToSignal board.now ring.new 0 (0 ∷ []) }
{
    if board.job_state(ring, 0) != JobState::Released {
        return false;
    }
    board.start(ring, 0);
    true
}

/// The ring starts the second batch, where it is released.
#[tactic(auto, using(crate::proofs::Asks::needs_nothing, crate::proofs::Asks::knows_so_far))]
fn start_second(board: &Board, ring: &mut Pass) -> bool
    requires plan { IsOfTwoBatches (plan_of board.now) }
    requires ring { HasRunFirst board.now ring.old }
    ensures { result ≡ true → IsToSignal board.now ring.new 1 (1 ∷ 0 ∷ []) }
{
    if board.job_state(ring, 1) != JobState::Released {
        return false;
    }
    board.start(ring, 1);
    true
}

/// The ring makes the first batch's signal, where it is bound, and finishes the batch.
#[tactic(auto, using(crate::proofs::Asks::needs_nothing))]
fn signal_first(board: &Board, ring: &mut Pass) -> bool
    requires plan { IsOfTwoBatches (plan_of board.now) }
    requires ring { IsToSignal board.now ring.old 0 (0 ∷ []) }
    ensures { result ≡ true → HasRunFirst board.now ring.new }
{
    if board.signal(ring, 0).is_err() {
        return false;
    }
    board.finish(ring, 0);
    true
}

/// The ring makes the second batch's signal, and finishes the batch.
#[tactic(auto, using(crate::proofs::Asks::needs_nothing))]
fn signal_second(board: &Board, ring: &mut Pass) -> bool
    requires plan { IsOfTwoBatches (plan_of board.now) }
    requires ring { IsToSignal board.now ring.old 1 (1 ∷ 0 ∷ []) }
{
    if board.signal(ring, 1).is_err() {
        return false;
    }
    board.finish(ring, 1);
    true
}

/// The ring runs the first batch. It says whether that was released, and its signal bound.
pub fn run_first(board: &Board, ring: &mut Pass) -> bool
    requires plan { IsOfTwoBatches (plan_of board.now) }
    requires ring { HasRun board.now ring.old [] }
    ensures { result ≡ true → HasRunFirst board.now ring.new }
{
    start_first(board, ring) && signal_first(board, ring)
}

/// The ring runs the second batch.
pub fn run_second(board: &Board, ring: &mut Pass) -> bool
    requires plan { IsOfTwoBatches (plan_of board.now) }
    requires ring { HasRunFirst board.now ring.old }
{
    start_second(board, ring) && signal_second(board, ring)
}
