//! A timeline with its lock.
//!
//! Source: this project's own.
ghost use Rattle.std.specs.Prelude.{◌≡◌};
ghost use Rattle.vq_board.specs.Named.{plan_of};
ghost use Rattle.vq_lock.specs.Named.{key_of};

use crate::parts::{Home, Shelf};
use vq_lock::{Guard, KeyedLock};
use vq_payload::Chain;

/// A shelf under a lock of its own, and beside the lock its chain, which is read without it.
#[derive(Drop)]
pub struct LockedTimeline {
    pub(crate) lock: KeyedLock<Home, Shelf>,
    pub(crate) chain: Chain,
    ghost plan: { chain.plan ≡ plan_of (key_of lock).board.value },
    ghost number: { chain.number ≡ (key_of lock).chain },
}

/// The right to a timeline's shelf while its lock is taken, for several calls in one go. It can't be dropped:
/// `unlock` ends it.
pub struct ShelfGuard {
    pub(crate) guard: Guard<Home, Shelf>,
}
