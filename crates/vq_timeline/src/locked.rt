//! The lock of a timeline: who waits until it is free takes it, calls the guard, and frees it.
//!
//! Source: this project's own.
ghost use Rattle.vq_timeline.specs.Named.{IsAt, IsHeld};

use crate::timeline::{LockedTimeline, ShelfGuard};
use std::sync::Wait;
use vq_board::Board;

impl LockedTimeline {
    /// Waits until the lock is free and takes it, for the calls of the guard. Until `unlock` frees it, who asks
    /// this timeline waits, and who asks another one doesn't. The guard can't be dropped.
    pub fn lock<R: Wait>(&self, rt: &R, board: &Board) -> ShelfGuard
        requires { IsAt board.now self.now }
        ensures { IsHeld board.now self.now result }
    {
        let _ = board;
        ShelfGuard {
            guard: self.lock.lock(rt),
        }
    }

    /// Frees the lock that was taken, with the shelf as the guard's calls left it.
    pub fn unlock(&self, board: &Board, guard: ShelfGuard)
        requires timeline { IsAt board.now self.now }
        requires held { IsHeld board.now self.now guard }
    {
        let _ = board;
        let ShelfGuard { guard } = guard;
        self.lock.unlock(guard);
    }
}
