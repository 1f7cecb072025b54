//! What the lists of a chain's points answer to who has their lock, told as can be once the lock is free.
//!
//! Source: this project's own.
ghost use Rattle.std.specs.Prelude.{◌≡◌, ◌<◌, IfOk, IfErr, Some, length};
ghost use Rattle.vq_board.specs.Named.{plan_of};
ghost use Rattle.vq_model.specs.Plan.{chain_of};
ghost use Rattle.vq_timeline.specs.Answers.{taken_point, IsBindRefused, Collects};
ghost use Rattle.vq_timeline.specs.Named.{chain_at, state_of, IsAt, IsHeld, Asked};
ghost use Rattle.vq_timeline_laws.specs.Calls.{place_in, HasTaken, IsTakeRefused, HasBound};

use vq_board::Board;
use vq_timeline::{BindFault, Collected, LockedTimeline, ShelfGuard};
use vq_timeline_core::{OpPlace, Taken};

/// Where an operation of the chain stands in the lists.
pub(crate) fn place_by(
    guard: &mut ShelfGuard,
    timeline: &LockedTimeline,
    board: &Board,
    op: u32,
) -> OpPlace
    requires timeline { IsAt board.now timeline.now }
    requires held { IsHeld board.now timeline.now guard.old }
    requires op { chain_of (plan_of board.now) op ≡ Some (chain_at timeline.now) }
    ensures held { IsHeld board.now timeline.now guard.new }
    ensures asked { Asked timeline.now (λ x y.
        (result ≡ place_in (plan_of board.now) (state_of x) op) × (y ≡ x)) }
{
    guard.place_of(timeline, board, op)
}

/// Gives a point to an operation of the chain that has none.
pub(crate) fn take_by(
    guard: &mut ShelfGuard,
    timeline: &LockedTimeline,
    board: &Board,
    op: u32,
) -> Result<Taken, OpPlace>
    requires timeline { IsAt board.now timeline.now }
    requires held { IsHeld board.now timeline.now guard.old }
    requires op { chain_of (plan_of board.now) op ≡ Some (chain_at timeline.now) }
    ensures held { IsHeld board.now timeline.now guard.new }
    ensures taken { IfOk result (λ t.
        Asked timeline.now (λ x y. HasTaken (plan_of board.now) (state_of x) (state_of y) op t)) }
    ensures refused { IfErr result (λ place.
        Asked timeline.now (λ x y. IsTakeRefused (plan_of board.now) (state_of x) (state_of y) op place)) }
    ensures below { IfOk result (λ t. taken_point t < length (plan_of board.now).ops) }
{
    guard.take_for(timeline, board, op)
}

/// Binds an operation of the chain to the point that is taken for it.
pub(crate) fn bind_by(
    guard: &mut ShelfGuard,
    timeline: &LockedTimeline,
    board: &Board,
    op: u32,
) -> Result<u32, BindFault>
    requires timeline { IsAt board.now timeline.now }
    requires held { IsHeld board.now timeline.now guard.old }
    requires op { chain_of (plan_of board.now) op ≡ Some (chain_at timeline.now) }
    ensures held { IsHeld board.now timeline.now guard.new }
    ensures bound { IfOk result (λ q.
        Asked timeline.now (λ x y. HasBound (plan_of board.now) (state_of x) (state_of y) op q)) }
    ensures refused { IfErr result (λ fault.
        Asked timeline.now (λ x y. IsBindRefused (plan_of board.now) (state_of x) (state_of y) op fault)) }
{
    guard.bind(timeline, board, op)
}

/// Completes the least pending operation of the chain, or frees a point.
pub(crate) fn collect_by(
    guard: &mut ShelfGuard,
    timeline: &LockedTimeline,
    board: &Board,
) -> Collected
    requires timeline { IsAt board.now timeline.now }
    requires held { IsHeld board.now timeline.now guard.old }
    ensures held { IsHeld board.now timeline.now guard.new }
    ensures asked { Asked timeline.now (λ x y.
        Collects (plan_of board.now) (chain_at timeline.now) (state_of x) (state_of y) result) }
{
    guard.collect(timeline, board)
}
