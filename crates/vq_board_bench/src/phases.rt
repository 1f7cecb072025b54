//! A row of batches is taken through the kinds of step, one after another.
ghost use Rattle.vq_board.specs.Named.{plan_of, view, IsOf};
ghost use Rattle.vq_board_bench.specs.Rows.{IsHost, IsShelf, IsBetween, AreReady};

use crate::batches::{Batches, Workers};
use crate::kind::Phase;
use vq_board::Pass;

impl Batches {
    /// The host releases the batches, the shelf binds the operations, the ring runs the batches, and so on, up to
    /// this phase.
    fn hand_on(&self, mut host: Pass, mut shelf: Pass, mut ring: Pass, last: Phase) -> bool
        requires host_of { IsOf self.now.board host }
        requires shelf_of { IsOf self.now.board shelf }
        requires ring_of { IsOf self.now.board ring }
        requires host { IsHost (view host) self.now.count 0 0 }
        requires shelf { IsShelf (plan_of self.now.board) (view shelf) self.now.signals self.now.signals 0 0 }
        requires ring { IsBetween (plan_of self.now.board) (view ring) 0 }
    {
        if !self.find(&mut host) {
            return false;
        }
        if last == Phase::Found {
            return true;
        }
        self.release(&mut host);
        if last == Phase::Released {
            return true;
        }
        if !self.know(&mut shelf) {
            return false;
        }
        if last == Phase::Known {
            return true;
        }
        self.bind(&mut shelf);
        last == Phase::Bound || (self.run(&mut ring) && self.end(&mut shelf, last))
    }

    /// Takes the batches through all kinds of step up to this phase. It says whether all came out as
    /// wanted.
    pub(crate) fn take(&self, workers: Workers, last: Phase) -> bool
        requires { AreReady self.now.board workers.host workers.shelf workers.ring }
    {
        let Workers {
            mut host,
            mut shelf,
            ring,
        } = workers;
        if last == Phase::Opened {
            return true;
        }
        self.submit(&mut host);
        if last == Phase::Submitted {
            return true;
        }
        if !self.make(&mut shelf) {
            return false;
        }
        if last == Phase::Made {
            return true;
        }
        self.assign(&mut shelf);
        last == Phase::Assigned || self.hand_on(host, shelf, ring, last)
    }
}
