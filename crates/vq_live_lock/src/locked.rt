//! A live timeline with its lock.
//!
//! Source: this project's own.
ghost use Rattle.std.specs.Prelude.{◌≡◌};
ghost use Rattle.std.specs.Arc.{arc_value};
ghost use Rattle.vq_lock.specs.Named.{key_of};

use crate::bell::Bell;
use crate::gauge::Gauge;
use crate::kept::{Home, Kept};
use std::alloc::Global;
use std::sync::Arc;
use vq_lock::{Guard, KeyedLock};

/// A live timeline under a lock of its own. Beside the lock stand the value that it reached, which is
/// read without it, and the bell that wakes who waits for a value.
#[derive(Drop)]
pub struct LockedLive {
    pub(crate) lock: KeyedLock<Home, Kept>,
    pub(crate) gauge: Gauge,
    pub(crate) bell: Arc<Bell, Global>,
    ghost same: { (key_of lock).gauge.value.table.shared.table_id ≡ gauge.table.shared.table_id },
    ghost first: { (key_of lock).gauge.value.table.shared.key ≡ gauge.table.shared.key },
    ghost rung: { (key_of lock).bell.value.table.shared.table_id ≡ (arc_value bell).table.shared.table_id },
}

/// The right to a timeline while its lock is taken, for several calls in one go. It can't be dropped:
/// `unlock` ends it.
pub struct LiveGuard {
    pub(crate) guard: Guard<Home, Kept>,
}
