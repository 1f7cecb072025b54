//! The steps on the word of an operation, and its signal.
//!
//! Source: this project's own, where an item names no other.
ghost use Rattle.std.specs.Prelude.{◌≡◌, ◌≢◌, ℕ, ◌+◌, ◌<◌, ◌^◌, ◌⊎◌, length, Some, IfOk, IfErr};
ghost use Rattle.std.specs.List.{slice_get};
ghost use Rattle.vq_board_laws.specs.declared.view.OpState.TheVariants.{Unbound as UnboundOp};
ghost use Rattle.vq_board_laws.specs.declared.view.OpState.TheVariants.{Bound as BoundOp, Past as PastOp};
ghost use Rattle.vq_board_laws.specs.declared.view.Fact.TheVariants.{BoundTo, Past as PastFact};
ghost use Rattle.vq_board_laws.specs.Knowledge.{Knows, KnowsMade};
ghost use Rattle.vq_board_laws.specs.MayPoints.{MayBind, MaySignal, MayComplete};
ghost use Rattle.vq_board_laws.specs.PointSteps.{op_number, recalls, binds, signals, completes};
ghost use Rattle.vq_board_laws.specs.Words.{op_word};
ghost use Rattle.vq_board.specs.Firsts.{counted, counted_state};
ghost use Rattle.vq_board.specs.Named.{plan_of, view, counts_of, IsOf, Turns, TurnsWith};
ghost use Rattle.vq_board.specs.Named.{Finds, Leaves, EndsAtPoint};

use crate::parts::{Board, Pass, Unbound};
use crate::plays::{Bind, Complete, Recall, Signal};
use crate::words::{op_word, point_word};
use vq_board_laws::view::OpState;
use vq_model::plan::Op;
use vq_point::SIGNAL;

/// The state of an operation with this word.
fn state_of(word: u64) -> OpState
    requires { word < 2 ^ 32 + 2 }
    ensures { op_number result ≡ word }
{
    match word {
        0 => OpState::Unbound,
        1 => OpState::Past,
        _ => OpState::Bound {
            point: (word - 2) as u32,
        },
    }
}

impl Board {
    /// An operation of the plan.
    pub fn op(&self, op: u32) -> Op
        requires { op < length (plan_of self.now).ops }
        ensures { slice_get (plan_of self.now).ops op ≡ Some result }
    {
        self.copies.op(op).unwrap()
    }

    /// How far an operation is. The pass knows it from then on.
    pub fn recall(&self, pass: &mut Pass, op: u32) -> OpState
        requires board { IsOf self.now pass.old }
        requires exists { op < length (plan_of self.now).ops }
        ensures pass { TurnsWith pass.old pass.new (recalls (view pass.old) op result)
            (counted_state (plan_of self.now).ops op result (counts_of pass.old)) }
        ensures point { (q : ℕ) → result ≡ BoundOp q → q < length (plan_of self.now).ops }
        ensures unsignaled { MaySignal (plan_of self.now) (view pass.old) op → result ≢ PastOp }
        ensures unmade { result ≡ UnboundOp →
            ¬ KnowsMade (plan_of self.now) (view pass.old).known op }
        ensures past { Knows (view pass.old).known (PastFact op) → result ≡ PastOp }
        ensures bound { (q : ℕ) → Knows (view pass.old).known (BoundTo op q) →
            (result ≡ BoundOp q) ⊎ (result ≡ PastOp) }
        ensures step { Finds self.now pass.old pass.new (op_word op) (op_number result) }
    {
        let word = self
            .table
            .shared
            .load::<Recall>(&mut pass.seat, op_word(op));
        let state = state_of(word);
        self.note_state(pass, op, state);
        state
    }

    /// Binds an operation to the point that carries it. The pass is that of the chain's shelf.
    pub fn bind(&self, pass: &mut Pass, op: u32, point: u32)
        requires board { IsOf self.now pass.old }
        requires exists { op < length (plan_of self.now).ops }
        requires may { MayBind (plan_of self.now) (view pass.old) op point }
        ensures pass { Turns pass.old pass.new (binds (view pass.old) op point) }
        ensures step { Leaves self.now pass.old pass.new (op_word op) (point + 2) }
    {
        self.table
            .shared
            .store::<Bind>(&mut pass.seat, op_word(op), point as u64 + 2);
    }

    /// Makes the next signal of the job that the pass runs. The error comes only where the operation
    /// was found unbound; then nothing is changed.
    ///
    /// Source: Vulkan 1.3, "Semaphore Signaling". Points are this project's rule.
    pub fn signal(&self, pass: &mut Pass, op: u32) -> Result<(), Unbound>
        requires board { IsOf self.now pass.old }
        requires exists { op < length (plan_of self.now).ops }
        requires may { MaySignal (plan_of self.now) (view pass.old) op }
        ensures signaled { IfOk result (λ _. (q n : ℕ)
            × TurnsWith pass.old pass.new (signals (recalls (view pass.old) op (BoundOp q)) op q n)
            (counted (plan_of self.now).ops op (counts_of pass.old))) }
        ensures unbound { IfErr result (λ _.
            Turns pass.old pass.new (recalls (view pass.old) op UnboundOp)) }
        ensures step { IfOk result (λ _. EndsAtPoint self.now pass.new) }
    {
        match self.recall(pass, op) {
            OpState::Unbound => Err(Unbound),
            OpState::Bound { point } => {
                self.table
                    .shared
                    .fetch_add::<Signal>(&mut pass.seat, point_word(point), SIGNAL);
                self.note_made(pass, op);
                Ok(())
            }
            // an operation that isn't signaled isn't completed
            OpState::Past => unreachable!(),
        }
    }

    /// Completes the least pending operation of the shelf's chain, which is signaled.
    pub fn complete(&self, pass: &mut Pass, op: u32)
        requires board { IsOf self.now pass.old }
        requires exists { op < length (plan_of self.now).ops }
        requires may { MayComplete (plan_of self.now) (view pass.old) op }
        ensures pass { TurnsWith pass.old pass.new (completes (view pass.old) op)
            (counted (plan_of self.now).ops op (counts_of pass.old)) }
        ensures step { Leaves self.now pass.old pass.new (op_word op) 1 }
    {
        self.table
            .shared
            .store::<Complete>(&mut pass.seat, op_word(op), 1);
        self.note_made(pass, op);
    }
}
