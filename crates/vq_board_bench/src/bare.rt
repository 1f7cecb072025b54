//! Bare atomic steps, on a table whose rule says nothing.
ghost use Rattle.std.specs.Prelude.{◌≡◌, ◌<◌, IfOk};

use crate::kind::BareStep;
use atomic_table::{Play, Seat, Table, TableRule};
use std::alloc::{AllocError, Global};

/// A rule that holds of every table.
pub(crate) struct Anything;

impl TableRule<u64, u64, u64> for Anything {
    ghost use Rattle.vq_board_bench.specs.Bare.{anything};

    ghost holds = { anything };

    ghost first = { λ key. key };
}

/// A step that tells nothing.
struct Silent;

impl Play<u64, u64> for Silent {
    ghost use Rattle.vq_board_bench.specs.Bare.{nothing};

    ghost then = { nothing };
}

/// A table with three words or more, and no slot.
#[derive(Drop)]
pub(crate) struct Bare {
    table: Table<u64, u64, u64, Anything, Global>,
    ghost wide: { 2 < table.shared.table_id.words },
}

pub(crate) type BareSeat = Seat<u64, u64>;

impl Bare {
    /// A table with so many words that are 0, and a seat.
    pub(crate) fn new(alloc: Global, count: usize) -> Result<(Bare, BareSeat), AllocError>
        requires { 2 < count }
        ensures { IfOk result (λ t. t.1.table_id ≡ t.0.table.shared.table_id) }
    {
        let words = vec![in alloc; 0u64; count]?;
        let (table, seat) = Table::of_words(alloc, words.as_slice(), &0)?;
        Ok((Bare { table }, seat))
    }

    /// Loads so often. It says whether each load found 0.
    fn loads(&self, seat: &mut BareSeat, rounds: u64) -> bool
        requires { seat.old.table_id ≡ self.now.table.shared.table_id }
    {
        let table = &self.table.shared;
        for _ in 0..rounds / 4 {
            if table.load::<Silent>(seat, 2) != 0
                || table.load::<Silent>(seat, 2) != 0
                || table.load::<Silent>(seat, 2) != 0
                || table.load::<Silent>(seat, 2) != 0
            {
                return false;
            }
        }
        true
    }

    /// Stores so often.
    fn stores(&self, seat: &mut BareSeat, rounds: u64) -> bool
        requires { seat.old.table_id ≡ self.now.table.shared.table_id }
    {
        for round in 0..rounds {
            self.table.shared.store::<Silent>(seat, 2, round);
        }
        true
    }

    /// Exchanges 0 for 1 and 1 for 0 so often. It says whether each exchange found what it wanted.
    fn exchanges(&self, seat: &mut BareSeat, rounds: u64) -> bool
        requires { seat.old.table_id ≡ self.now.table.shared.table_id }
    {
        let table = &self.table.shared;
        let (mut old, mut new) = (0, 1);
        for _ in 0..rounds {
            if table.compare_exchange::<Silent>(seat, 2, old, new) != old {
                return false;
            }
            (old, new) = (new, old);
        }
        true
    }

    /// Adds so often.
    fn adds(&self, seat: &mut BareSeat, rounds: u64) -> bool
        requires { seat.old.table_id ≡ self.now.table.shared.table_id }
    {
        let mut last = 0;
        for _ in 0..rounds {
            last = self.table.shared.fetch_add::<Silent>(seat, 2, 3);
        }
        last != 1
    }

    /// Makes so many steps of a kind. It says whether they came out as wanted.
    pub(crate) fn steps(&self, mut seat: BareSeat, step: BareStep, rounds: u64) -> bool
        requires { seat.table_id ≡ self.now.table.shared.table_id }
    {
        match step {
            BareStep::Load => self.loads(&mut seat, rounds),
            BareStep::Store => self.stores(&mut seat, rounds),
            BareStep::Exchange => self.exchanges(&mut seat, rounds),
            BareStep::Add => self.adds(&mut seat, rounds),
        }
    }
}
