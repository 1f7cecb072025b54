//! A word with the value that a timeline reached. It never falls, so who read it once knows it for good.
//!
//! Source: this project's own.
ghost use Rattle.std.specs.Prelude.{◌≡◌};

use crate::bell::Heard;
use crate::rule::{Known, Rising, Start};
use atomic_table::{Seat, Table};
use std::alloc::Global;

/// A gauge. Its reads take no lock.
#[derive(Drop)]
pub(crate) struct Gauge {
    pub(crate) table: Table<Heard, Known, Start, Rising, Global>,
    ghost one_word: { table.shared.table_id.words ≡ 1 },
}

/// The right to raise a gauge. There is one for each.
#[derive(Drop)]
pub(crate) struct Pen {
    pub(crate) seat: Seat<Heard, Known>,
}

/// That a timeline reached a value. It has no bytes, and comes from a read of that timeline.
#[derive(Drop)]
pub struct Reached {
    pub(crate) seat: Seat<Heard, Known>,
}

/// That a note is left at a gauge for a value that isn't reached, and how often the bell was rung then, modulo
/// 2^32.
#[derive(Drop)]
pub struct Note {
    pub(crate) seat: Seat<Heard, Known>,
    pub(crate) rings: u32,
}
