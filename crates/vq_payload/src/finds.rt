//! Looks for a value of a chain.
//!
//! Source: this project's own, where an item names no other.
ghost use Rattle.std.specs.Prelude.{◌≡◌, ◌<◌, ◌≤◌, ◌⊎◌, ◌^◌, ◌+◌, ℕ, length, Some};
ghost use Rattle.std.specs.List.{slice_get};
ghost use Rattle.vq_model.specs.Plan.{initial, resolver};
ghost use Rattle.vq_board.specs.Named.{plan_of, IsOf};
ghost use Rattle.vq_payload.specs.Chains.{operations};
ghost use Rattle.vq_payload.specs.Finding.{found_by, HasRecalled};

use crate::chain::Chain;
use vq_board::{Board, OpState, Pass};
use vq_timeline_core::Found;

/// What is found of a value, by the place of the operation that resolves it and by how far that one is.
fn found_by(index: u32, state: OpState) -> Found
    requires { index + 1 < 2 ^ 32 }
    ensures { result ≡ found_by index state }
{
    match state {
        OpState::Unbound => Found::NotYet { bound: index },
        OpState::Bound { point } => Found::Pending { index, point },
        OpState::Past => Found::Past { past: index + 1 },
    }
}

impl Chain {
    /// The place of the first operation with this value or a greater one, or how many there are where
    /// there is none.
    fn place_reaching(&self, value: u64) -> usize
        ensures place { slice_get (operations self.now) result
            ≡ resolver self.now.plan self.now.number value }
        ensures few { length (operations self.now) < 2 ^ 32 }
    {
        self.values().partition_point(|known| *known < value)
    }

    /// Where a value stands, as the caller's pass finds it: past where it is at most the initial one; else
    /// past, pending or not bound yet as the operation that resolves it, which the pass recalls. It takes
    /// no lock. An operation that is pending may be made by now.
    pub fn find(&self, board: &Board, pass: &mut Pass, value: u64) -> Found
        requires chain { self.now.plan ≡ plan_of board.now }
        requires pass { IsOf board.now pass.old }
        requires resolved { (value ≤ initial self.now.plan self.now.number)
            ⊎ ((e : ℕ) × (resolver self.now.plan self.now.number value ≡ Some e)) }
        ensures early { value ≤ initial self.now.plan self.now.number →
            (result ≡ Found.Past 0) × (pass.new ≡ pass.old) }
        ensures late { initial self.now.plan self.now.number < value →
            HasRecalled board.now self.now pass.old pass.new value result }
        ensures point { (i q : ℕ) → result ≡ Found.Pending i q → q < length self.now.plan.ops }
    {
        if value <= self.initial() {
            return Found::Past { past: 0 };
        }
        let index = self.place_reaching(value) as u32;
        let state = board.recall(pass, self.op(index));
        found_by(index, state)
    }
}
