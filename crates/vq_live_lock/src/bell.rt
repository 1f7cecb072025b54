//! What those who wait sleep on.
//!
//! Source: this project's own.
ghost use Rattle.std.specs.Prelude.{◌≡◌};

use crate::counting::{Counting, Times};
use atomic_table::{Seat, Table};
use std::alloc::Global;

/// A bell that several timelines share, so that a wait for any of them sleeps in one place. It is rung
/// when a timeline reached a value that somebody waits for, and only then.
#[derive(Drop)]
pub struct Bell {
    pub(crate) table: Table<(), Times, (), Counting, Global>,
    ghost one_word: { table.shared.table_id.words ≡ 1 },
}

/// That a bell was rung at least so often. It has no bytes.
#[derive(Drop)]
pub struct Heard {
    pub(crate) seat: Seat<(), Times>,
}
