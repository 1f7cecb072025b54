//! The steps of the host and the ring of the test of a batch with two waits.
ghost use Rattle.std.specs.Prelude.{◌≡◌, true, [], ◌∷◌};
ghost use Rattle.vq_board_laws.specs.Points.{reference};
ghost use Rattle.vq_board.specs.Named.{plan_of, view, IsOf};
ghost use Rattle.vq_board_stage.specs.HostSteps.{HasFinished};
ghost use Rattle.vq_board_stage.specs.TwoWaits.{IsOfTwoWaits, IsToStart, RunsBatch};

use crate::submitting::carrying;
use vq_board::{Board, JobState, OpState, Pass, Referred};

/// The host submits the batch, and hands it on where both signals that it waits for are bound.
pub fn hand_on_waiting(board: &Board, host: &mut Pass) -> bool
    requires plan { IsOfTwoWaits (plan_of board.now) }
    requires host { HasFinished board.now host.old 2 }
    ensures board { IsOf board.now host.new }
    ensures role { (view host.new).role ≡ 0 }
{
    board.submit(host, 2);
    if board.recall(host, 0) != (OpState::Bound { point: 0 }) {
        return false;
    }
    if board.recall(host, 1) != (OpState::Bound { point: 1 }) {
        return false;
    }
    board.release(host, 2);
    true
}

/// P's ring takes a reference to each of the two points.
pub fn refer_to_both(board: &Board, ring: &mut Pass) -> bool
    requires plan { IsOfTwoWaits (plan_of board.now) }
    requires ring { IsToStart board.now ring.old [] }
    ensures { result ≡ true →
        IsToStart board.now ring.new (reference 1 1 ∷ reference 0 0 ∷ []) }
{
    board.refer(ring, 0, 0) == Referred::Held && board.refer(ring, 1, 1) == Referred::Held
}

/// P's ring starts the batch, where it sees both signals.
pub fn start_waiting(board: &Board, ring: &mut Pass) -> bool
    requires plan { IsOfTwoWaits (plan_of board.now) }
    requires ring { IsToStart board.now ring.old (reference 1 1 ∷ reference 0 0 ∷ []) }
    ensures { result ≡ true →
        RunsBatch board.now ring.new (reference 1 1 ∷ reference 0 0 ∷ []) }
{
    if board.job_state(ring, 2) != JobState::Released {
        return false;
    }
    if board.look(ring, 0) != carrying(0, 1, true) {
        return false;
    }
    if board.look(ring, 1) != carrying(1, 1, true) {
        return false;
    }
    board.start(ring, 2);
    true
}

/// P's ring gives both references back, and finishes the batch.
pub fn finish_waiting(board: &Board, ring: &mut Pass) -> bool
    requires plan { IsOfTwoWaits (plan_of board.now) }
    requires ring { RunsBatch board.now ring.old (reference 1 1 ∷ reference 0 0 ∷ []) }
{
    if board.unrefer(ring, 0, 0).is_err() || board.unrefer(ring, 1, 1).is_err() {
        return false;
    }
    board.finish(ring, 2);
    true
}
