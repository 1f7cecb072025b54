//! Tables by number, with an item for what isn't there.
ghost use Rattle.std.specs.Prelude.{◌≡◌, ◌<◌, length, replicate, IfOk};
ghost use Rattle.std.specs.List.{slice_index_or};
ghost use Rattle.std.proofs.Math.ListN.{set};
ghost use Rattle.vq_tables.specs.Tables.{idle, no_slot};

use std::alloc::{AllocError, Global};
use std::marker::Model;

/// What a job has come to.
#[derive(Clone, Copy)]
pub struct JobRecord {
    pub released: bool,
    pub started: bool,
    pub finished: bool,
    /// How many of its commands are applied.
    pub commands: usize,
    /// How many of its signals are made.
    pub signals: usize,
}

impl JobRecord {
    /// Nothing of it is done.
    pub fn idle() -> JobRecord
        ensures { result ≡ idle }
    {
        JobRecord {
            released: false,
            started: false,
            finished: false,
            commands: 0,
            signals: 0,
        }
    }
}

/// What a point has come to.
#[derive(Clone, Copy)]
pub struct PointSlot {
    /// The operation that it carries.
    pub carried: Option<u32>,
    /// Whether it waits to be freed.
    pub waits: bool,
    /// How many references to it are held.
    pub references: usize,
}

impl PointSlot {
    /// It carries nothing.
    pub fn empty() -> PointSlot
        ensures { result ≡ no_slot }
    {
        PointSlot {
            carried: None,
            waits: false,
            references: 0,
        }
    }
}

/// Items by number.
#[derive(Drop)]
pub struct Table<T> {
    items: Vec<T>,
}

impl<T> Model for Table<T> {
    ghost use Rattle.std.specs.Prelude.{List};

    ghost Value = { List T };

    ghost view = { λ a. a.items.items };
}

impl<T: Copy> Table<T> {
    /// A table with these items.
    pub fn of(items: Vec<T>) -> Table<T>
        ensures { result ≡ items.items }
    {
        Table { items }
    }

    /// An item, or this one where the number is too great.
    pub fn at(&self, number: u32, none: T) -> T
        ensures { result ≡ slice_index_or self.now number none }
    {
        match self.items.get(number as usize) {
            Some(item) => *item,
            None => none,
        }
    }

    /// Puts an item in another's place.
    pub fn put(&mut self, number: u32, item: T)
        requires { number < length self.old }
        ensures { self.new ≡ set self.old number item }
    {
        self.items[number as usize] = item;
    }
}
