//! How many of each chain's first operations a pass knows made. A later reader of the chain's payload
//! goes on from there.
//!
//! Source: this project's own, where an item names no other.
ghost use Rattle.std.specs.Prelude.{◌≡◌, ◌<◌, ◌≤◌, length, slice_index, true};
ghost use Rattle.vq_model.specs.Plan.{chain as operations_of};
ghost use Rattle.vq_board_laws.specs.declared.view.OpState.TheVariants.{Past as PastOp};
ghost use Rattle.vq_board.specs.Firsts.{shows_made, counted, counted_state, counted_word, ShowsFirst, KnowsFirst};
ghost use Rattle.vq_board.specs.Named.{plan_of, view, counts_of, IsOf, TurnsWith};

use crate::parts::{Board, Pass};
use vq_board_laws::view::OpState;
use vq_point::PointWord;

impl Pass {
    /// How many of the chain's first operations the pass's own steps showed made.
    pub fn first_made(&self, chain: u32) -> u32
        requires { chain < length (view self.now).plan.chains }
        ensures count { result ≡ slice_index (counts_of self.now) chain }
        ensures within { result ≤ length (operations_of (view self.now).plan chain) }
        ensures shown { ShowsFirst (view self.now).plan (view self.now).known chain result }
        ensures known { KnowsFirst (view self.now).plan (view self.now).known chain result }
    {
        self.first_made[chain as usize]
    }
}

impl Board {
    /// Counts an operation that the pass knows made, where it is the next one of its chain.
    pub(crate) fn note_made(&self, pass: &mut Pass, op: u32)
        requires board { IsOf self.now pass.old }
        requires made { shows_made (view pass.old).known op ≡ true }
        ensures { TurnsWith pass.old pass.new (view pass.old)
            (counted (plan_of self.now).ops op (counts_of pass.old)) }
    {
        let Some(op) = self.copies.op(op) else {
            return;
        };
        let chain = op.chain as usize;
        if pass.first_made[chain] == op.index {
            pass.first_made[chain] += 1;
        }
    }

    /// The same of an operation whose word says that it is past.
    pub(crate) fn note_state(&self, pass: &mut Pass, op: u32, state: OpState)
        requires board { IsOf self.now pass.old }
        requires made { state ≡ PastOp → shows_made (view pass.old).known op ≡ true }
        ensures { TurnsWith pass.old pass.new (view pass.old)
            (counted_state (plan_of self.now).ops op state (counts_of pass.old)) }
    {
        match state {
            OpState::Past => self.note_made(pass, op),
            _ => {}
        }
    }

    /// The same of the operation of a point, whose word says that it is signaled.
    pub(crate) fn note_word(&self, pass: &mut Pass, word: PointWord)
        requires board { IsOf self.now pass.old }
        requires made { word.held ≡ true → word.signaled ≡ true →
            shows_made (view pass.old).known word.op ≡ true }
        ensures { TurnsWith pass.old pass.new (view pass.old)
            (counted_word (plan_of self.now).ops word (counts_of pass.old)) }
    {
        if word.held && word.signaled {
            self.note_made(pass, word.op);
        }
    }
}
