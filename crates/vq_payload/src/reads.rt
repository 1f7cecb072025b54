//! Reads of a chain's payload.
//!
//! Source: this project's own, where an item names no other.
ghost use Rattle.std.specs.Prelude.{◌≡◌, ◌<◌, ◌≤◌, ◌&&◌, ◌||◌, ◌==◌, true, false, not, length};
ghost use Rattle.vq_board_laws.specs.declared.view.Fact.TheVariants.{BoundTo};
ghost use Rattle.vq_board_laws.specs.Knowledge.{Knows, KnowsMade};
ghost use Rattle.vq_board.specs.Firsts.{shows_made};
ghost use Rattle.vq_board.specs.Named.{plan_of, view, IsOf};
ghost use Rattle.vq_payload.specs.Chains.{operations, value_up_to};
ghost use Rattle.vq_payload.specs.Learning.{HasLearned};
ghost use Rattle.vq_payload.specs.Reading.{ShowsNext, HasRead};

use crate::chain::Chain;
use vq_board::{Board, OpState, Pass};
use vq_point::PointWord;

/// Whether the word of a point to which an operation was bound shows it made: the point is signaled, or
/// carries another by now.
fn shows(word: PointWord, op: u32) -> bool
    ensures { result ≡ (not (word.held && (word.op == op)) || word.signaled) }
{
    !(word.held && word.op == op) || word.signaled
}

/// Looks at the point of an operation: whether that shows the operation made.
fn sees_made_at(board: &Board, pass: &mut Pass, op: u32, point: u32) -> bool
    requires pass { IsOf board.now pass.old }
    requires exists { point < length (plan_of board.now).ops }
    requires bound { Knows (view pass.old).known (BoundTo op point) }
    ensures pass { HasLearned pass.old pass.new }
    ensures made { result ≡ true → shows_made (view pass.new).known op ≡ true }
    ensures shown { result ≡ false → ShowsNext (view pass.old) (view pass.new) op }
    ensures unmade { result ≡ false → ¬ KnowsMade (plan_of board.now) (view pass.new).known op }
{
    shows(board.look(pass, point), op)
}

/// Looks at an operation, and at its point while it is bound: whether that shows it made.
fn sees_made(board: &Board, pass: &mut Pass, op: u32) -> bool
    requires pass { IsOf board.now pass.old }
    requires exists { op < length (plan_of board.now).ops }
    ensures pass { HasLearned pass.old pass.new }
    ensures made { result ≡ true → shows_made (view pass.new).known op ≡ true }
    ensures shown { result ≡ false → ShowsNext (view pass.old) (view pass.new) op }
    ensures unmade { result ≡ false → ¬ KnowsMade (plan_of board.now) (view pass.new).known op }
{
    match board.recall(pass, op) {
        OpState::Unbound => false,
        OpState::Past => true,
        OpState::Bound { point } => sees_made_at(board, pass, op, point),
    }
}

impl Chain {
    /// The payload after so many of the operations.
    fn value_up_to(&self, count: u32) -> u64
        requires { count ≤ length (operations self.now) }
        ensures { result ≡ value_up_to self.now.plan self.now.number count }
    {
        if count == 0 {
            return self.initial();
        }
        self.values()[count as usize - 1]
    }

    /// The payload, as far as the caller's pass knows it or its looks now show it. Of the operations that
    /// its own steps haven't shown made, the pass looks at one after another, until one isn't made. It
    /// takes no lock and completes nothing.
    ///
    /// Source: Vulkan 1.3, vkGetSemaphoreCounterValue.
    pub fn read(&self, board: &Board, pass: &mut Pass) -> u64
        requires chain { self.now.plan ≡ plan_of board.now }
        requires pass { IsOf board.now pass.old }
        ensures pass { IsOf board.now pass.new }
        ensures learned { HasLearned pass.old pass.new }
        ensures payload { HasRead self.now.plan self.now.number (view pass.old) (view pass.new) result }
    {
        let count = self.len();
        for index in pass.first_made(self.number())..count {
            if !sees_made(board, pass, self.op(index)) {
                return self.value_up_to(index);
            }
        }
        self.value_up_to(count)
    }
}
