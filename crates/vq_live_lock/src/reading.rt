//! The opening of a gauge, its reads, its raising, and the notes that are left at it.
//!
//! Source: this project's own.
ghost use Rattle.std.specs.Prelude.{ℕ, Option, Some, None, ◌≡◌, ◌≤◌, ◌<◌, ◌+◌, IfOk};
ghost use Rattle.vq_live_lock.specs.Gauges.{IsAbove, IsNoted, rings_of};
ghost use Rattle.vq_live_lock.specs.Named.{IsNoteOf, IsPenOf, Shows, initial_of};

use crate::bell::Heard;
use crate::gauge::{Gauge, Note, Pen, Reached};
use crate::rule::{Clear, HandOut, Leave, Look, Raise, Share, Start};
use atomic_table::Table;
use std::alloc::{AllocError, Global};

impl Gauge {
    /// A gauge that starts with this value. The error is want of memory; no other call takes memory.
    pub(crate) fn new(alloc: Global, initial: u64) -> Result<(Gauge, Pen), AllocError>
        ensures pen { IfOk result (λ r. IsPenOf r.0 r.1 initial None 0) }
        ensures from { IfOk result (λ r. initial_of r.0 ≡ initial) }
    {
        let (table, seat) = Table::of_words(alloc, &[initial], &Start { initial })?;
        Ok((Gauge { table }, Pen { seat }))
    }

    /// The value, and what shows that it was reached.
    pub(crate) fn look(&self) -> (u64, Reached)
        ensures shows { Shows self.now result.1 result.0 }
        ensures from { initial_of self.now ≤ result.0 }
    {
        let (found, seat) = self.table.shared.load_new_seat::<Look>(0);
        (found, Reached { seat })
    }

    /// The value, which isn't below one that is known to be reached.
    pub(crate) fn look_again(&self, reached: &mut Reached) -> u64
        requires { (n : ℕ) × Shows self.now reached.old n }
        ensures shows { Shows self.now reached.new result }
        ensures rises { (n : ℕ) → Shows self.now reached.old n → n ≤ result }
    {
        self.table.shared.load::<Look>(&mut reached.seat, 0)
    }

    /// Raises the value; what is noted stays above it.
    pub(crate) fn raise(&self, pen: &mut Pen, value: u64)
        requires { (n : ℕ) × (l : Option ℕ) × (r : ℕ) × IsPenOf self.now pen.old n l r × (n ≤ value) × IsAbove l value }
        ensures { (n : ℕ) (l : Option ℕ) (r : ℕ) → IsPenOf self.now pen.old n l r → n ≤ value →
            IsPenOf self.now pen.new value l r }
    {
        self.table.shared.store::<Raise>(&mut pen.seat, 0, value);
    }

    /// Raises the value, and keeps no note any more: the bell was rung for each that was left.
    pub(crate) fn clear(&self, pen: &mut Pen, value: u64)
        requires { (n : ℕ) × (l : Option ℕ) × (r : ℕ) × IsPenOf self.now pen.old n l r × (n ≤ value) }
        ensures { (n : ℕ) (l : Option ℕ) (r : ℕ) → IsPenOf self.now pen.old n l r → n ≤ value →
            IsPenOf self.now pen.new value None (r + 1) }
    {
        self.table.shared.store::<Clear>(&mut pen.seat, 0, value);
    }

    /// Leaves a note for this value, which is above the gauge and not above what is noted, since the bell was
    /// rung as often as is known.
    pub(crate) fn note(&self, pen: &mut Pen, value: u64, heard: &Heard, rings: u32) -> Note
        requires { (n : ℕ) × (l : Option ℕ) × (r : ℕ) × IsPenOf self.now pen.old n l r × (n < value)
            × (r ≤ rings_of heard.now) × ((x : ℕ) → IsNoted l x → value ≤ x) }
        ensures pen { (n : ℕ) (l : Option ℕ) (r : ℕ) → IsPenOf self.now pen.old n l r →
            IsPenOf self.now pen.new n (Some value) (rings_of heard.now) }
        ensures note { IsNoteOf self.now result value (rings_of heard.now) }
        ensures rings { result.rings ≡ rings }
    {
        // it writes what it finds: what changes is what the pen knows, and that only a step can change
        self.table
            .shared
            .compare_exchange_with::<Leave>(&mut pen.seat, 0, value, value, heard);
        Note {
            seat: self.table.shared.split_seat::<HandOut>(&mut pen.seat),
            rings,
        }
    }

    /// What shows the value that the pen wrote last.
    pub(crate) fn shown(&self, pen: &mut Pen) -> Reached
        requires { (n : ℕ) × (l : Option ℕ) × (r : ℕ) × IsPenOf self.now pen.old n l r }
        ensures pen { (n : ℕ) (l : Option ℕ) (r : ℕ) → IsPenOf self.now pen.old n l r → IsPenOf self.now pen.new n l r }
        ensures shows { (n : ℕ) (l : Option ℕ) (r : ℕ) → IsPenOf self.now pen.old n l r → Shows self.now result n }
    {
        Reached {
            seat: self.table.shared.split_seat::<Share>(&mut pen.seat),
        }
    }
}
