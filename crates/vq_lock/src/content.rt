//! The content of a lock, lent through its guard.
//!
//! Source: this project's own.
ghost use Rattle.std.specs.Prelude.{◌≡◌};
ghost use Rattle.std.specs.Borrow.{sem};
ghost use Rattle.vq_lock.specs.Named.{Has};
ghost use Rattle.vq_lock.specs.Lending.{LendsContent};

use crate::lock::{Guard, KeyedLock};
use crate::parts::Fits;

impl<K, T: Fits<K>> Guard<K, T> {
    /// The content. When the borrow ends, the guard has what was written through it.
    pub fn content<'a>(&'a mut self, lock: &'a KeyedLock<K, T>) -> &'a mut T
        requires { (x : T) × Has lock.now self.old x }
        ensures* writes_back { sem 𝓛 (LendsContent K.row T.row self.entry result) }
        ensures value { Has lock.now self.old result.now }
    {
        self.seat.slot_mut(&lock.table.shared, 0)
    }
}
