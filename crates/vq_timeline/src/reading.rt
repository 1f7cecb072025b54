//! Looks for a value of a timeline, and reads of its payload. They take no lock, and so can't wait: the
//! caller's own pass looks at the board's words.
//!
//! Source: this project's own, where an item names no other.
ghost use Rattle.std.specs.Prelude.{◌≡◌, ◌<◌, ◌≤◌, ◌⊎◌, ℕ, length, Some};
ghost use Rattle.vq_model.specs.Plan.{initial, resolver};
ghost use Rattle.vq_board.specs.Named.{plan_of, view, IsOf};
ghost use Rattle.vq_payload.specs.Finding.{HasRecalled};
ghost use Rattle.vq_payload.specs.Learning.{HasLearned};
ghost use Rattle.vq_payload.specs.Reading.{HasRead};
ghost use Rattle.vq_timeline.specs.Named.{chain_at, chain_on, IsAt};

use crate::timeline::LockedTimeline;
use vq_board::{Board, Pass};
use vq_timeline_core::Found;

impl LockedTimeline {
    /// Where a value stands, as the caller's pass finds it: past where it is at most the initial one; else
    /// past, pending or not bound yet as the operation that resolves it, which the pass recalls.
    pub fn find(&self, board: &Board, pass: &mut Pass, value: u64) -> Found
        requires timeline { IsAt board.now self.now }
        requires pass { IsOf board.now pass.old }
        requires resolved { (value ≤ initial (plan_of board.now) (chain_at self.now))
            ⊎ ((e : ℕ) × (resolver (plan_of board.now) (chain_at self.now) value ≡ Some e)) }
        ensures early { value ≤ initial (plan_of board.now) (chain_at self.now) →
            (result ≡ Found.Past 0) × (pass.new ≡ pass.old) }
        ensures late { initial (plan_of board.now) (chain_at self.now) < value →
            HasRecalled board.now (chain_on board.now self.now) pass.old pass.new value result }
        ensures point { (i q : ℕ) → result ≡ Found.Pending i q → q < length (plan_of board.now).ops }
    {
        self.chain.find(board, pass, value)
    }

    /// The payload, as far as the caller's pass knows it or its looks now show it. It completes nothing.
    ///
    /// Source: Vulkan 1.3, vkGetSemaphoreCounterValue.
    pub fn read(&self, board: &Board, pass: &mut Pass) -> u64
        requires timeline { IsAt board.now self.now }
        requires pass { IsOf board.now pass.old }
        ensures pass { IsOf board.now pass.new }
        ensures learned { HasLearned pass.old pass.new }
        ensures payload { HasRead (plan_of board.now) (chain_at self.now)
            (view pass.old) (view pass.new) result }
    {
        self.chain.read(board, pass)
    }
}
