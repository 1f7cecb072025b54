//! The steps of the host and the shelf until the ring may run the batches of a row, one kind of step
//! after another.
ghost use Rattle.std.specs.Prelude.{◌≡◌, true};
ghost use Rattle.vq_board.specs.Named.{plan_of, view, IsOf};
ghost use Rattle.vq_board_bench.specs.Rows.{IsHost, IsShelf};

use crate::batches::Batches;
use vq_board::{JobState, Pass};

impl Batches {
    /// The host submits the batches.
    pub(crate) fn submit(&self, host: &mut Pass)
        requires board { IsOf self.now.board host.old }
        requires host { IsHost (view host.old) 0 0 0 }
        ensures board { IsOf self.now.board host.new }
        ensures host { IsHost (view host.new) self.now.count 0 0 }
    {
        for j in 0..self.count {
            self.board.submit(host, j);
        }
    }

    /// The shelf makes a point for each signal. It says whether each has the next number.
    pub(crate) fn make(&self, shelf: &mut Pass) -> bool
        requires board { IsOf self.now.board shelf.old }
        requires shelf { IsShelf (plan_of self.now.board) (view shelf.old) 0 0 0 0 }
        ensures board { IsOf self.now.board shelf.new }
        ensures shelf { result ≡ true →
            IsShelf (plan_of self.now.board) (view shelf.new) self.now.signals 0 0 0 }
    {
        for j in 0..self.signals {
            if self.board.make(shelf) != j {
                return false;
            }
        }
        true
    }

    /// The shelf gives the points to the operations.
    pub(crate) fn assign(&self, shelf: &mut Pass)
        requires board { IsOf self.now.board shelf.old }
        requires shelf { IsShelf (plan_of self.now.board) (view shelf.old) self.now.signals 0 0 0 }
        ensures board { IsOf self.now.board shelf.new }
        ensures shelf { IsShelf (plan_of self.now.board) (view shelf.new) self.now.signals self.now.signals 0 0 }
    {
        for j in 0..self.signals {
            self.board.assign(shelf, j, j);
        }
    }

    /// The host looks at the points. It says whether they carry the operations.
    pub(crate) fn find(&self, host: &mut Pass) -> bool
        requires board { IsOf self.now.board host.old }
        requires host { IsHost (view host.old) self.now.count 0 0 }
        ensures board { IsOf self.now.board host.new }
        ensures host { result ≡ true → IsHost (view host.new) self.now.count self.now.signals 0 }
    {
        for j in 0..self.signals {
            let word = self.board.look(host, j);
            if !word.held || word.op != j {
                return false;
            }
        }
        true
    }

    /// The host hands the batches to the device.
    pub(crate) fn release(&self, host: &mut Pass)
        requires board { IsOf self.now.board host.old }
        requires host { IsHost (view host.old) self.now.count self.now.signals 0 }
        ensures board { IsOf self.now.board host.new }
        ensures host { IsHost (view host.new) self.now.count self.now.signals self.now.count }
    {
        for j in 0..self.count {
            self.board.release(host, j);
        }
    }

    /// The shelf asks how far the batches with signals are. It says whether all are released.
    pub(crate) fn know(&self, shelf: &mut Pass) -> bool
        requires board { IsOf self.now.board shelf.old }
        requires shelf { IsShelf (plan_of self.now.board) (view shelf.old) self.now.signals self.now.signals 0 0 }
        ensures board { IsOf self.now.board shelf.new }
        ensures shelf { result ≡ true → IsShelf (plan_of self.now.board) (view shelf.new)
            self.now.signals self.now.signals self.now.signals 0 }
    {
        for j in 0..self.signals {
            if self.board.job_state(shelf, j) != JobState::Released {
                return false;
            }
        }
        true
    }

    /// The shelf binds the operations.
    pub(crate) fn bind(&self, shelf: &mut Pass)
        requires board { IsOf self.now.board shelf.old }
        requires shelf { IsShelf (plan_of self.now.board) (view shelf.old)
            self.now.signals self.now.signals self.now.signals 0 }
        ensures board { IsOf self.now.board shelf.new }
        ensures shelf { IsShelf (plan_of self.now.board) (view shelf.new)
            self.now.signals self.now.signals self.now.signals self.now.signals }
    {
        for j in 0..self.signals {
            self.board.bind(shelf, j, j);
        }
    }
}
