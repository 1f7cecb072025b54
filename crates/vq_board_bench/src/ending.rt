//! The steps of the shelf when the ring has run the batches of a row, one kind of step after another.
ghost use Rattle.std.specs.Prelude.{◌≡◌, ◌<◌, suc, true};
ghost use Rattle.vq_board.specs.Named.{plan_of, view, IsOf};
ghost use Rattle.vq_board_bench.specs.Rows.{IsShelf, IsEnding};

use crate::batches::Batches;
use crate::kind::Phase;
use vq_board::{JobState, Pass};

impl Batches {
    /// The shelf asks how far the batches with signals are. It says whether all are finished.
    fn see(&self, shelf: &mut Pass) -> bool
        requires board { IsOf self.now.board shelf.old }
        requires shelf { IsEnding (plan_of self.now.board) (view shelf.old) self.now.signals 0 0 0 }
        ensures board { IsOf self.now.board shelf.new }
        ensures shelf { result ≡ true → IsEnding (plan_of self.now.board) (view shelf.new)
            self.now.signals self.now.signals 0 0 }
    {
        for j in 0..self.signals {
            if self.board.job_state(shelf, j) != JobState::Finished {
                return false;
            }
        }
        true
    }

    /// The shelf completes the operations.
    fn complete(&self, shelf: &mut Pass)
        requires board { IsOf self.now.board shelf.old }
        requires shelf { IsEnding (plan_of self.now.board) (view shelf.old)
            self.now.signals self.now.signals 0 0 }
        ensures board { IsOf self.now.board shelf.new }
        ensures shelf { IsEnding (plan_of self.now.board) (view shelf.new)
            self.now.signals self.now.signals self.now.signals 0 }
    {
        for j in 0..self.signals {
            self.board.complete(shelf, j);
        }
    }

    /// The shelf frees a point. It says whether no one had a reference to it.
    fn free(&self, shelf: &mut Pass, j: u32) -> bool
        requires exists { j < self.now.signals }
        requires board { IsOf self.now.board shelf.old }
        requires shelf { IsEnding (plan_of self.now.board) (view shelf.old)
            self.now.signals self.now.signals self.now.signals j }
        ensures board { IsOf self.now.board shelf.new }
        ensures freed { result ≡ true → IsEnding (plan_of self.now.board) (view shelf.new)
            self.now.signals self.now.signals self.now.signals (suc j) }
    {
        match self.board.retire(shelf, j) {
            Ok(()) => true,
            Err(_) => false,
        }
    }

    /// The shelf frees the points. It says whether all are free.
    fn retire(&self, shelf: &mut Pass) -> bool
        requires board { IsOf self.now.board shelf.old }
        requires shelf { IsEnding (plan_of self.now.board) (view shelf.old)
            self.now.signals self.now.signals self.now.signals 0 }
        ensures { IsOf self.now.board shelf.new }
    {
        for j in 0..self.signals {
            if !self.free(shelf, j) {
                return false;
            }
        }
        true
    }

    /// All these steps, up to this phase. It says whether they came out as wanted.
    pub(crate) fn end(&self, shelf: &mut Pass, last: Phase) -> bool
        requires board { IsOf self.now.board shelf.old }
        requires shelf { IsShelf (plan_of self.now.board) (view shelf.old)
            self.now.signals self.now.signals self.now.signals self.now.signals }
        ensures { IsOf self.now.board shelf.new }
    {
        if last == Phase::Run {
            return true;
        }
        if !self.see(shelf) {
            return false;
        }
        if last == Phase::Seen {
            return true;
        }
        self.complete(shelf);
        last == Phase::Completed || self.retire(shelf)
    }
}
