//! The ring runs the batches of a row.
ghost use Rattle.std.specs.Prelude.{◌≡◌, ◌<◌, suc, length, true};
ghost use Rattle.vq_model.specs.Plan.{commands_of, signals_of};
ghost use Rattle.vq_board.specs.Named.{plan_of, view, IsOf};
ghost use Rattle.vq_board_bench.specs.Rows.{IsBetween, IsInside};

use crate::batches::Batches;
use vq_board::{JobState, Pass};

impl Batches {
    /// The ring starts the batch, where it is released.
    fn start(&self, ring: &mut Pass, j: u32) -> bool
        requires exists { j < self.now.count }
        requires board { IsOf self.now.board ring.old }
        requires ring { IsBetween (plan_of self.now.board) (view ring.old) j }
        ensures board { IsOf self.now.board ring.new }
        ensures ring { result ≡ true → IsInside (plan_of self.now.board) (view ring.new) j 0 0 }
    {
        if self.board.job_state(ring, j) != JobState::Released {
            return false;
        }
        self.board.start(ring, j);
        true
    }

    /// The ring applies the batch's command, where it has one.
    #[tactic(auto, using(crate::proofs::RingSteps::needless))]
    fn apply(&self, ring: &mut Pass, j: u32) -> bool
        requires exists { j < self.now.count }
        requires board { IsOf self.now.board ring.old }
        requires ring { IsInside (plan_of self.now.board) (view ring.old) j 0 0 }
        ensures board { IsOf self.now.board ring.new }
        ensures ring { result ≡ true → IsInside (plan_of self.now.board) (view ring.new) j
            (length (commands_of (plan_of self.now.board) j)) 0 }
    {
        if j >= self.commands {
            return true;
        }
        let Some(mut held) = self.board.take_memory(ring) else {
            return false;
        };
        self.board.enter(ring, &mut held, j);
        self.board.give_memory(ring, held);
        true
    }

    /// The ring makes the batch's signal, where it has one.
    #[tactic(auto, using(crate::proofs::RingSteps::needless))]
    fn signal(&self, ring: &mut Pass, j: u32) -> bool
        requires exists { j < self.now.count }
        requires board { IsOf self.now.board ring.old }
        requires ring { IsInside (plan_of self.now.board) (view ring.old) j
            (length (commands_of (plan_of self.now.board) j)) 0 }
        ensures board { IsOf self.now.board ring.new }
        ensures ring { result ≡ true → IsInside (plan_of self.now.board) (view ring.new) j
            (length (commands_of (plan_of self.now.board) j))
            (length (signals_of (plan_of self.now.board) j)) }
    {
        if j >= self.signals {
            return true;
        }
        self.board.signal(ring, j).is_ok()
    }

    /// The ring runs the batch.
    #[tactic(auto, using(crate::proofs::RingSteps::needless))]
    fn run_one(&self, ring: &mut Pass, j: u32) -> bool
        requires exists { j < self.now.count }
        requires board { IsOf self.now.board ring.old }
        requires ring { IsBetween (plan_of self.now.board) (view ring.old) j }
        ensures board { IsOf self.now.board ring.new }
        ensures ring { result ≡ true → IsBetween (plan_of self.now.board) (view ring.new) (suc j) }
    {
        if !self.start(ring, j) || !self.apply(ring, j) || !self.signal(ring, j) {
            return false;
        }
        self.board.finish(ring, j);
        true
    }

    /// The ring runs the batches. It says whether all were released and bound.
    pub(crate) fn run(&self, ring: &mut Pass) -> bool
        requires board { IsOf self.now.board ring.old }
        requires ring { IsBetween (plan_of self.now.board) (view ring.old) 0 }
        ensures { IsOf self.now.board ring.new }
    {
        for j in 0..self.count {
            if !self.run_one(ring, j) {
                return false;
            }
        }
        true
    }
}
