//! Who asks the lists of chains' points: one who waits for their locks, or one who tries them.
//!
//! Source: this project's own.
ghost use Rattle.std.specs.Prelude.{◌≡◌, ◌<◌, length, IfOk, IfErr, IfSome, Some, None};
ghost use Rattle.vq_access.specs.Grounding.{waiter_of};
ghost use Rattle.vq_board.specs.Named.{plan_of};
ghost use Rattle.vq_model.specs.Plan.{chain_of};
ghost use Rattle.vq_timeline.specs.Answers.{taken_point, IsBindRefused, Collects};
ghost use Rattle.vq_timeline.specs.Named.{chain_at, state_of, IsAt, Asked};
ghost use Rattle.vq_timeline_laws.specs.Calls.{place_in, HasTaken, IsTakeRefused, HasBound};

use crate::guarded::{bind_by, collect_by, place_by, take_by};
use std::sync::Wait;
use vq_board::Board;
use vq_timeline::{BindFault, Collected, LockedTimeline};
use vq_timeline_core::{OpPlace, Taken};

/// Asks the lists of a chain's points, which lie under the lock of its timeline, and answers what they answer. There is
/// no answer where they are in use, and then nothing was asked.
pub trait Lists {
    /// Holds where lists may be found in use.
    ghost tries: { Self → Type 0 };

    /// Where an operation of the chain stands in the lists.
    fn place_of(&self, timeline: &LockedTimeline, board: &Board, op: u32) -> Option<OpPlace>
        requires timeline { IsAt board.now timeline.now }
        requires op { chain_of (plan_of board.now) op ≡ Some (chain_at timeline.now) }
        ensures asked { IfSome result (λ place.
            Asked timeline.now (λ x y. (place ≡ place_in (plan_of board.now) (state_of x) op) × (y ≡ x))) }
        ensures in_use { result ≡ None → tries self.now };

    /// Gives a point to an operation of the chain that has none.
    fn take_for(
        &self,
        timeline: &LockedTimeline,
        board: &Board,
        op: u32,
    ) -> Option<Result<Taken, OpPlace>>
        requires timeline { IsAt board.now timeline.now }
        requires op { chain_of (plan_of board.now) op ≡ Some (chain_at timeline.now) }
        ensures taken { IfSome result (λ r. IfOk r (λ t.
            Asked timeline.now (λ x y. HasTaken (plan_of board.now) (state_of x) (state_of y) op t))) }
        ensures refused { IfSome result (λ r. IfErr r (λ place.
            Asked timeline.now (λ x y. IsTakeRefused (plan_of board.now) (state_of x) (state_of y) op place))) }
        ensures below { IfSome result (λ r. IfOk r (λ t. taken_point t < length (plan_of board.now).ops)) }
        ensures in_use { result ≡ None → tries self.now };

    /// Binds an operation of the chain to the point that is taken for it.
    fn bind(
        &self,
        timeline: &LockedTimeline,
        board: &Board,
        op: u32,
    ) -> Option<Result<u32, BindFault>>
        requires timeline { IsAt board.now timeline.now }
        requires op { chain_of (plan_of board.now) op ≡ Some (chain_at timeline.now) }
        ensures bound { IfSome result (λ r. IfOk r (λ q.
            Asked timeline.now (λ x y. HasBound (plan_of board.now) (state_of x) (state_of y) op q))) }
        ensures refused { IfSome result (λ r. IfErr r (λ fault.
            Asked timeline.now (λ x y. IsBindRefused (plan_of board.now) (state_of x) (state_of y) op fault))) }
        ensures in_use { result ≡ None → tries self.now };

    /// Completes the least pending operation of the chain, or frees a point.
    fn collect(&self, timeline: &LockedTimeline, board: &Board) -> Option<Collected>
        requires timeline { IsAt board.now timeline.now }
        ensures asked { IfSome result (λ collected. Asked timeline.now (λ x y.
            Collects (plan_of board.now) (chain_at timeline.now) (state_of x) (state_of y) collected)) }
        ensures in_use { result ≡ None → tries self.now };
}

/// Waits until the lists are free: it always has an answer.
#[derive(Drop)]
pub struct Waiting<'a, R> {
    pub(crate) rt: &'a R,
}

impl<'a, R> Waiting<'a, R> {
    /// By who can wait.
    pub fn new(rt: &'a R) -> Waiting<'a, R>
        ensures { waiter_of result ≡ rt.now }
    {
        Waiting { rt }
    }

    /// Who can wait.
    pub fn rt(&self) -> &'a R
        ensures { result.now ≡ waiter_of self.now }
    {
        self.rt
    }
}

impl<'a, R: Wait> Lists for Waiting<'a, R> {
    ghost tries = { λ _. ⊥ };

    fn place_of(&self, timeline: &LockedTimeline, board: &Board, op: u32) -> Option<OpPlace> {
        let mut guard = timeline.lock(self.rt, board);
        let place = place_by(&mut guard, timeline, board, op);
        timeline.unlock(board, guard);
        Some(place)
    }

    fn take_for(
        &self,
        timeline: &LockedTimeline,
        board: &Board,
        op: u32,
    ) -> Option<Result<Taken, OpPlace>> {
        let mut guard = timeline.lock(self.rt, board);
        let taken = take_by(&mut guard, timeline, board, op);
        timeline.unlock(board, guard);
        Some(taken)
    }

    fn bind(
        &self,
        timeline: &LockedTimeline,
        board: &Board,
        op: u32,
    ) -> Option<Result<u32, BindFault>> {
        let mut guard = timeline.lock(self.rt, board);
        let bound = bind_by(&mut guard, timeline, board, op);
        timeline.unlock(board, guard);
        Some(bound)
    }

    fn collect(&self, timeline: &LockedTimeline, board: &Board) -> Option<Collected> {
        let mut guard = timeline.lock(self.rt, board);
        let collected = collect_by(&mut guard, timeline, board);
        timeline.unlock(board, guard);
        Some(collected)
    }
}

/// Tries: it has no answer while another asks the same lists. It waits for nobody and wakes nobody, so all who ask the
/// lists of a board have to try where one does.
#[derive(Clone, Copy)]
pub struct Trying;

impl Lists for Trying {
    ghost use Rattle.std.specs.Prelude.{⊤};

    ghost tries = { λ _. ⊤ };

    fn place_of(&self, timeline: &LockedTimeline, board: &Board, op: u32) -> Option<OpPlace> {
        let mut guard = timeline.try_lock(board)?;
        let place = place_by(&mut guard, timeline, board, op);
        timeline.unlock_quietly(board, guard);
        Some(place)
    }

    fn take_for(
        &self,
        timeline: &LockedTimeline,
        board: &Board,
        op: u32,
    ) -> Option<Result<Taken, OpPlace>> {
        let mut guard = timeline.try_lock(board)?;
        let taken = take_by(&mut guard, timeline, board, op);
        timeline.unlock_quietly(board, guard);
        Some(taken)
    }

    fn bind(
        &self,
        timeline: &LockedTimeline,
        board: &Board,
        op: u32,
    ) -> Option<Result<u32, BindFault>> {
        let mut guard = timeline.try_lock(board)?;
        let bound = bind_by(&mut guard, timeline, board, op);
        timeline.unlock_quietly(board, guard);
        Some(bound)
    }

    fn collect(&self, timeline: &LockedTimeline, board: &Board) -> Option<Collected> {
        let mut guard = timeline.try_lock(board)?;
        let collected = collect_by(&mut guard, timeline, board);
        timeline.unlock_quietly(board, guard);
        Some(collected)
    }
}
