//! A lock and the right to its content.
//!
//! Source: this project's own.
ghost use Rattle.std.specs.Prelude.{◌≡◌};

use crate::parts::{Fits, Ruled, Turn};
use atomic_table::{Seat, Table};
use std::alloc::Global;

/// Content under a lock that was made for a key. Its word is 0 while it is free, 1 while it is taken
/// and nobody waits for it, and 2 while it is taken and somebody may wait.
#[derive(Drop)]
pub struct KeyedLock<K, T: Fits<K>> {
    pub(crate) table: Table<T, Turn<K>, K, Ruled, Global>,
    ghost one_word: { table.shared.table_id.words ≡ 1 },
    ghost one_slot: { table.shared.table_id.slots ≡ 1 },
}

/// The right to a lock's content while the lock is taken. It can't be dropped: `unlock` ends it.
pub struct Guard<K, T> {
    pub(crate) seat: Seat<T, Turn<K>>,
}
