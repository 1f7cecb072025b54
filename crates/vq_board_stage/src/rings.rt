//! The steps of the rings' passes.
ghost use Rattle.std.specs.Prelude.{◌≡◌, true, [], ◌∷◌};
ghost use Rattle.vq_board_laws.specs.declared.view.Role.TheVariants.{Ring};
ghost use Rattle.vq_board_laws.specs.Points.{reference};
ghost use Rattle.vq_board.specs.Named.{plan_of};
ghost use Rattle.vq_board_stage.specs.Dealing.{IsNew};
ghost use Rattle.vq_board_stage.specs.Holders.{HasReferences, IsToSignal};
ghost use Rattle.vq_board_stage.specs.Runs.{IsMadeByARun};
ghost use Rattle.vq_board_stage.specs.ThreeSignals.{IsOfThreeSignals};

use crate::submitting::carrying;
use vq_board::{Board, JobState, Pass, Referred, Unbound};
use vq_board_laws::laws::{looks_tell_of_operations, words_show_a_run};

/// Q's ring takes a reference to point 0, which carries operation 0.
pub fn refer_first(board: &Board, ring: &mut Pass) -> bool
    requires plan { IsOfThreeSignals (plan_of board.now) }
    requires without { HasReferences board.now ring.old 1 [] }
    ensures { result ≡ true → HasReferences board.now ring.new 1 (reference 0 0 ∷ []) }
{
    board.refer(ring, 0, 0) == Referred::Held
}

/// Q's ring gives its reference back, where the point's word says that there is one.
pub fn unrefer_first(board: &Board, ring: &mut Pass) -> bool
    requires plan { IsOfThreeSignals (plan_of board.now) }
    requires held { HasReferences board.now ring.old 1 (reference 0 0 ∷ []) }
    ensures { result ≡ true → HasReferences board.now ring.new 1 [] }
{
    if board.look(ring, 0) != carrying(0, 1, true) {
        return false;
    }
    board.unrefer(ring, 0, 0).is_ok()
}

/// Q's ring sees point 0, to which it has a reference, signaled. By the board's laws, of the moment of
/// that look, a run of the machine has then made operation 0.
pub fn sees_it_made(board: &Board, ring: &mut Pass) -> bool
    requires plan { IsOfThreeSignals (plan_of board.now) }
    requires held { HasReferences board.now ring.old 1 (reference 0 0 ∷ []) }
    ensures held { HasReferences board.now ring.new 1 (reference 0 0 ∷ []) }
    ensures made { result ≡ true → IsMadeByARun (plan_of board.now) 0 }
{
    // these do nothing; their contracts are the laws
    looks_tell_of_operations();
    words_show_a_run();
    board.look(ring, 0).signaled
}

/// Q's ring finds that point 0 carries operation 2, and no longer operation 0.
pub fn finds_it_moved_on(board: &Board, ring: &mut Pass) -> bool
    requires plan { IsOfThreeSignals (plan_of board.now) }
    requires without { HasReferences board.now ring.old 1 [] }
{
    // operation 2, no reference, not signaled, held: 2 + 2 ^ 49
    let found = 562_949_953_421_314;
    board.refer(ring, 0, 0) == Referred::MovedOn { found }
}

/// P's ring starts its first batch, and makes its command.
#[tactic(auto, using(crate::proofs::Asks::needs_nothing, crate::proofs::Asks::knows_so_far))]
pub fn fill_first(board: &Board, ring: &mut Pass) -> bool
    requires plan { IsOfThreeSignals (plan_of board.now) }
    requires ring { IsNew board.now ring.old (Ring 0) }
    ensures { result ≡ true → IsToSignal board.now ring.new }
{
    if board.job_state(ring, 0) != JobState::Released {
        return false;
    }
    board.start(ring, 0);
    let Some(mut held) = board.take_memory(ring) else {
        return false;
    };
    board.enter(ring, &mut held, 0);
    board.give_memory(ring, held);
    true
}

/// P's ring can't signal operation 0 while it is unbound.
#[tactic(auto, using(crate::proofs::Asks::needs_nothing))]
pub fn is_unbound(board: &Board, ring: &mut Pass) -> bool
    requires plan { IsOfThreeSignals (plan_of board.now) }
    requires ring { IsToSignal board.now ring.old }
    ensures { result ≡ true → IsToSignal board.now ring.new }
{
    board.signal(ring, 0) == Err(Unbound)
}

/// P's ring signals operation 0 and finishes the batch.
#[tactic(auto, using(crate::proofs::Asks::needs_nothing))]
pub fn signal_first(board: &Board, ring: &mut Pass) -> bool
    requires plan { IsOfThreeSignals (plan_of board.now) }
    requires ring { IsToSignal board.now ring.old }
{
    if board.signal(ring, 0).is_err() {
        return false;
    }
    board.finish(ring, 0);
    true
}
