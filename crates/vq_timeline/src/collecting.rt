//! The call on a shelf that completes operations and frees points.
//!
//! Source: this project's own.
ghost use Rattle.std.specs.Prelude.{◌≡◌, ◌<◌, ℕ, length, true, None, IfSome};
ghost use Rattle.vq_ground.specs.Lists.{has};
ghost use Rattle.vq_point_laws.specs.Timeline.{first_pending, after_free};
ghost use Rattle.vq_board_laws.specs.MayPoints.{MayRetire};
ghost use Rattle.vq_board.specs.Named.{plan_of, view, IsOf, Turns};
ghost use Rattle.vq_timeline_laws.specs.Calls.{state, HasCompleted, FindsUnsignaled};
ghost use Rattle.vq_timeline_laws.specs.Waiting.{FindsAllInUse, FindsFree};
ghost use Rattle.vq_timeline.specs.Named.{IsShelfOf, chain_number, state_of};
ghost use Rattle.vq_timeline.specs.Answers.{Collects};

use crate::parts::{Collected, Shelf};
use vq_board::{Board, Pass};
use vq_point_laws::laws::calls_lose_no_point;

/// Tries to take the operations off these points, whose operations are past, in order. It answers the first
/// point that had no reference, if any.
fn retire_one(board: &Board, pass: &mut Pass, points: &[u32]) -> Option<u32>
    requires pass { IsOf board.now pass.old }
    requires below { (q : ℕ) → has points.now q ≡ true → q < length (plan_of board.now).ops }
    requires may { (q : ℕ) → has points.now q ≡ true →
        (e : ℕ) × MayRetire (plan_of board.now) (view pass.old) q e }
    ensures own { Turns pass.old pass.new (view pass.new) }
    ensures freed { IfSome result (FindsFree points.now (view pass.old) (view pass.new)) }
    ensures in_use { result ≡ None → FindsAllInUse points.now (view pass.old) (view pass.new) }
{
    for point in points {
        match board.retire(pass, *point) {
            Ok(()) => return Some(*point),
            // somebody refers to it: the next one
            Err(_) => {}
        }
    }
    None
}

impl Shelf {
    /// Completes the least pending operation, if its point is signaled.
    fn complete_first(&mut self, board: &Board) -> Option<u32>
        requires shelf { IsShelfOf board.now self.old }
        ensures shelf { IsShelfOf board.now self.new }
        ensures chain { chain_number self.new ≡ chain_number self.old }
        ensures completed { IfSome result (HasCompleted (plan_of board.now) (chain_number self.old)
            (state_of self.old) (state_of self.new)) }
        ensures looked { result ≡ None → FindsUnsignaled (first_pending self.old.core)
            (view self.old.pass) (view self.new.pass) }
        ensures unchanged { result ≡ None → state_of self.new
            ≡ state self.old.core (view self.new.pass) (state_of self.old).counts }
    {
        // does nothing; its contract says that no call on the lists loses a point
        calls_lose_no_point();
        let (index, point) = self.core.first()?;
        let word = board.look(&mut self.pass, point);
        if !word.signaled {
            return None;
        }
        let op = self.ops[index as usize];
        board.complete(&mut self.pass, op);
        self.core.complete_first();
        Some(op)
    }

    /// Frees the first waiting point that has no reference, if any.
    fn free_first(&mut self, board: &Board) -> Option<u32>
        requires shelf { IsShelfOf board.now self.old }
        ensures shelf { IsShelfOf board.now self.new }
        ensures chain { chain_number self.new ≡ chain_number self.old }
        ensures freed { IfSome result (FindsFree self.old.core.waiting
            (view self.old.pass) (view self.new.pass)) }
        ensures after { IfSome result (λ q. state_of self.new
            ≡ state (after_free self.old.core q) (view self.new.pass) (state_of self.old).counts) }
        ensures in_use { result ≡ None → FindsAllInUse self.old.core.waiting
            (view self.old.pass) (view self.new.pass) }
        ensures unchanged { result ≡ None → state_of self.new
            ≡ state self.old.core (view self.new.pass) (state_of self.old).counts }
    {
        // does nothing; its contract says that no call on the lists loses a point
        calls_lose_no_point();
        let point = retire_one(board, &mut self.pass, self.core.waiting_free())?;
        self.core.free(point);
        Some(point)
    }

    /// Looks at the point of the least pending operation and completes the operation where it is signaled.
    /// Else it tries to free the waiting points, in the order of completion, and frees the first that has no
    /// reference. It does nothing exactly where it finds nothing to complete or free.
    pub fn collect(&mut self, board: &Board) -> Collected
        requires shelf { IsShelfOf board.now self.old }
        ensures shelf { IsShelfOf board.now self.new }
        ensures chain { chain_number self.new ≡ chain_number self.old }
        ensures collected { Collects (plan_of board.now) (chain_number self.old)
            (state_of self.old) (state_of self.new) result }
    {
        if let Some(op) = self.complete_first(board) {
            return Collected::Completed(op);
        }
        match self.free_first(board) {
            Some(point) => Collected::Freed(point),
            None => Collected::Nothing,
        }
    }
}
