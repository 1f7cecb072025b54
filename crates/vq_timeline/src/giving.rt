//! The calls on a shelf that give points to operations.
//!
//! Source: this project's own.
ghost use Rattle.std.specs.Prelude.{◌≡◌, ◌<◌, length, IfOk, IfErr, Some, None};
ghost use Rattle.std.specs.List.{slice_get};
ghost use Rattle.vq_model.specs.Plan.{chain_of};
ghost use Rattle.vq_timeline_core.specs.declared.answers.OpPlace.TheVariants.{Without};
ghost use Rattle.vq_timeline_core.specs.declared.answers.Taken.TheVariants.{Reused, Fresh};
ghost use Rattle.vq_board.specs.Named.{plan_of};
ghost use Rattle.vq_timeline_laws.specs.Calls.{place_in, may_bind, HasTaken, IsTakeRefused, HasBound};
ghost use Rattle.vq_timeline.specs.Named.{IsShelfOf, chain_number, state_of};
ghost use Rattle.vq_timeline.specs.Answers.{taken_point, IsBindRefused};

use crate::parts::{BindFault, Shelf};
use vq_board::{Board, JobState};
use vq_point_laws::laws::calls_lose_no_point;
use vq_timeline_core::{OpPlace, Taken};

/// No point has this number: there are at most as many points as operations, which are fewer.
const NO_POINT: u32 = u32::MAX;

/// Whether an operation of a job in this state may be bound: a batch is released, or a host step started.
fn may_bind(of_host: bool, seen: JobState) -> bool
    ensures { result ≡ may_bind of_host seen }
{
    match seen {
        JobState::Waiting | JobState::Submitted => false,
        JobState::Released => !of_host,
        JobState::Started | JobState::Finished => true,
    }
}

impl Shelf {
    /// Where an operation of the chain stands in the lists.
    pub fn place_of(&self, board: &Board, op: u32) -> OpPlace
        requires shelf { IsShelfOf board.now self.now }
        requires op { chain_of (plan_of board.now) op ≡ Some (chain_number self.now) }
        ensures { result ≡ place_in (plan_of board.now) (state_of self.now) op }
    {
        self.core.place_of(board.op(op).index)
    }

    /// Gives a point to an operation of the chain that has none: the free one that was freed last, or a new
    /// one where none is free. The error comes exactly where the operation has or had a point, with its
    /// place; then nothing changes.
    pub fn take_for(&mut self, board: &Board, op: u32) -> Result<Taken, OpPlace>
        requires shelf { IsShelfOf board.now self.old }
        requires op { chain_of (plan_of board.now) op ≡ Some (chain_number self.old) }
        ensures shelf { IsShelfOf board.now self.new }
        ensures chain { chain_number self.new ≡ chain_number self.old }
        ensures taken { IfOk result (HasTaken (plan_of board.now) (state_of self.old) (state_of self.new) op) }
        ensures refused { IfErr result
            (IsTakeRefused (plan_of board.now) (state_of self.old) (state_of self.new) op) }
        ensures below { IfOk result (λ t. taken_point t < length (plan_of board.now).ops) }
    {
        let place = self.core.place_of(board.op(op).index);
        let OpPlace::Without = place else {
            return Err(place);
        };
        match self.core.first_free() {
            Some(point) => {
                self.use_again(board, op, point);
                Ok(Taken::Reused(point))
            }
            None => Ok(Taken::Fresh(self.make_for(board, op))),
        }
    }

    /// Gives the free point that was freed last to an operation that has none.
    fn use_again(&mut self, board: &Board, op: u32, point: u32)
        requires shelf { IsShelfOf board.now self.old }
        requires op { chain_of (plan_of board.now) op ≡ Some (chain_number self.old) }
        requires without { place_in (plan_of board.now) (state_of self.old) op ≡ Without }
        requires free { slice_get self.old.core.free 0 ≡ Some point }
        ensures shelf { IsShelfOf board.now self.new }
        ensures chain { chain_number self.new ≡ chain_number self.old }
        ensures taken { HasTaken (plan_of board.now) (state_of self.old) (state_of self.new) op (Reused point) }
        ensures below { point < length (plan_of board.now).ops }
    {
        // does nothing; its contract says that no call on the lists loses a point
        calls_lose_no_point();
        let index = board.op(op).index;
        self.core.take(index, NO_POINT);
        board.assign(&mut self.pass, point, op);
    }

    /// Makes a point and gives it to an operation that has none, where no point is free.
    fn make_for(&mut self, board: &Board, op: u32) -> u32
        requires shelf { IsShelfOf board.now self.old }
        requires op { chain_of (plan_of board.now) op ≡ Some (chain_number self.old) }
        requires without { place_in (plan_of board.now) (state_of self.old) op ≡ Without }
        requires none_free { slice_get self.old.core.free 0 ≡ None }
        ensures shelf { IsShelfOf board.now self.new }
        ensures chain { chain_number self.new ≡ chain_number self.old }
        ensures taken { HasTaken (plan_of board.now) (state_of self.old) (state_of self.new) op (Fresh result) }
        ensures below { result < length (plan_of board.now).ops }
    {
        // does nothing; its contract says that no call on the lists loses a point
        calls_lose_no_point();
        let index = board.op(op).index;
        let point = board.make(&mut self.pass);
        self.core.take(index, point);
        board.assign(&mut self.pass, point, op);
        point
    }

    /// Binds an operation of the chain to the point that is taken for it, and answers the point. The errors
    /// come in this order: where no point is taken for it; where an operation of smaller value isn't bound;
    /// and where its job was read in this call to be neither released nor, for a host step, started. Then no
    /// list changes.
    pub fn bind(&mut self, board: &Board, op: u32) -> Result<u32, BindFault>
        requires shelf { IsShelfOf board.now self.old }
        requires op { chain_of (plan_of board.now) op ≡ Some (chain_number self.old) }
        ensures shelf { IsShelfOf board.now self.new }
        ensures chain { chain_number self.new ≡ chain_number self.old }
        ensures bound { IfOk result (HasBound (plan_of board.now) (state_of self.old) (state_of self.new) op) }
        ensures refused { IfErr result
            (IsBindRefused (plan_of board.now) (state_of self.old) (state_of self.new) op) }
        ensures below { IfOk result (λ q. q < length (plan_of board.now).ops) }
    {
        // does nothing; its contract says that no call on the lists loses a point
        calls_lose_no_point();
        let found = board.op(op);
        let place = self.core.place_of(found.index);
        let OpPlace::Taken { point } = place else {
            return Err(BindFault::NotTaken { place });
        };
        let next = self.core.bound();
        if next != found.index {
            return Err(BindFault::NotNext { next });
        }
        let seen = board.job_state(&mut self.pass, found.job);
        if !may_bind(self.of_hosts[found.index as usize], seen) {
            return Err(BindFault::NotReleased { seen });
        }
        board.bind(&mut self.pass, op, point);
        match self.core.bind(found.index, point) {
            Ok(()) => Ok(point),
            Err(_) => unreachable!(),
        }
    }
}
