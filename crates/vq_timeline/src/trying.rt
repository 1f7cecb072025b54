//! The lock of a timeline, tried: where it is free it is taken, and else there is no guard. It waits for nobody and
//! wakes nobody, so all who ask a timeline so ask it in no other way: who waits for its lock might sleep for ever.
//!
//! Source: this project's own.
ghost use Rattle.std.specs.Prelude.{IfSome};
ghost use Rattle.vq_timeline.specs.Named.{IsAt, IsHeld};

use crate::timeline::{LockedTimeline, ShelfGuard};
use vq_board::Board;

impl LockedTimeline {
    /// Takes the lock, for the calls of the guard; nothing where it is taken. `unlock_quietly` ends the guard.
    pub fn try_lock(&self, board: &Board) -> Option<ShelfGuard>
        requires { IsAt board.now self.now }
        ensures { IfSome result (IsHeld board.now self.now) }
    {
        let _ = board;
        let guard = self.lock.try_lock()?;
        Some(ShelfGuard { guard })
    }

    /// Frees the lock that was taken, as `unlock` does, and wakes nobody.
    pub fn unlock_quietly(&self, board: &Board, guard: ShelfGuard)
        requires timeline { IsAt board.now self.now }
        requires held { IsHeld board.now self.now guard }
    {
        let _ = board;
        let ShelfGuard { guard } = guard;
        self.lock.unlock_quietly(guard);
    }
}
