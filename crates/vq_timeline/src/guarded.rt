//! The calls on a timeline's shelf while its lock is taken. Each says whole what it answers, of the shelf that the
//! guard had and the one that it has now.
//!
//! Source: this project's own.
ghost use Rattle.std.specs.Prelude.{◌≡◌, ◌<◌, length, IfOk, IfErr, Some};
ghost use Rattle.vq_model.specs.Plan.{chain_of};
ghost use Rattle.vq_board.specs.Named.{plan_of};
ghost use Rattle.vq_timeline_laws.specs.Calls.{place_in, HasTaken, IsTakeRefused, HasBound};
ghost use Rattle.vq_timeline.specs.Named.{chain_at, state_of, AskedBy, IsHeld};
ghost use Rattle.vq_timeline.specs.Answers.{taken_point, IsBindRefused, Collects};

use crate::parts::{BindFault, Collected};
use crate::timeline::{LockedTimeline, ShelfGuard};
use vq_board::Board;
use vq_timeline_core::{OpPlace, Taken};

impl ShelfGuard {
    /// Where an operation of the chain stands in the lists.
    pub fn place_of(&mut self, of: &LockedTimeline, board: &Board, op: u32) -> OpPlace
        requires held { IsHeld board.now of.now self.old }
        requires op { chain_of (plan_of board.now) op ≡ Some (chain_at of.now) }
        ensures held { IsHeld board.now of.now self.new }
        ensures place { AskedBy of.now self.old self.new (λ x y.
            (result ≡ place_in (plan_of board.now) (state_of x) op) × (y ≡ x)) }
    {
        self.guard.content(&of.lock).place_of(board, op)
    }

    /// Gives a point to an operation of the chain that has none, as the shelf does.
    pub fn take_for(
        &mut self,
        of: &LockedTimeline,
        board: &Board,
        op: u32,
    ) -> Result<Taken, OpPlace>
        requires held { IsHeld board.now of.now self.old }
        requires op { chain_of (plan_of board.now) op ≡ Some (chain_at of.now) }
        ensures held { IsHeld board.now of.now self.new }
        ensures taken { IfOk result (λ t. AskedBy of.now self.old self.new (λ x y.
            HasTaken (plan_of board.now) (state_of x) (state_of y) op t)) }
        ensures refused { IfErr result (λ place. AskedBy of.now self.old self.new (λ x y.
            IsTakeRefused (plan_of board.now) (state_of x) (state_of y) op place)) }
        ensures below { IfOk result (λ t. taken_point t < length (plan_of board.now).ops) }
    {
        self.guard.content(&of.lock).take_for(board, op)
    }

    /// Binds an operation of the chain to the point that is taken for it, as the shelf does.
    pub fn bind(&mut self, of: &LockedTimeline, board: &Board, op: u32) -> Result<u32, BindFault>
        requires held { IsHeld board.now of.now self.old }
        requires op { chain_of (plan_of board.now) op ≡ Some (chain_at of.now) }
        ensures held { IsHeld board.now of.now self.new }
        ensures bound { IfOk result (λ q. AskedBy of.now self.old self.new (λ x y.
            HasBound (plan_of board.now) (state_of x) (state_of y) op q)) }
        ensures refused { IfErr result (λ fault. AskedBy of.now self.old self.new (λ x y.
            IsBindRefused (plan_of board.now) (state_of x) (state_of y) op fault)) }
        ensures below { IfOk result (λ q. q < length (plan_of board.now).ops) }
    {
        self.guard.content(&of.lock).bind(board, op)
    }

    /// Completes the least pending operation, or frees a point, as the shelf does.
    pub fn collect(&mut self, of: &LockedTimeline, board: &Board) -> Collected
        requires { IsHeld board.now of.now self.old }
        ensures held { IsHeld board.now of.now self.new }
        ensures collected { AskedBy of.now self.old self.new (λ x y.
            Collects (plan_of board.now) (chain_at of.now) (state_of x) (state_of y) result) }
    {
        self.guard.content(&of.lock).collect(board)
    }
}
