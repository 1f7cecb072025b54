//! Rows of numbers.
//!
//! Source: this project's own.
ghost use Rattle.std.specs.Prelude.{◌≡◌, ◌<◌, ◌++◌, ◌∷◌, [], length, IfOk, OnOk};
ghost use Rattle.std.specs.List.{slice_index_or};
ghost use Rattle.vq_lists.specs.Cut.{start_of};

use std::alloc::{AllocError, Global};
use std::marker::Model;

/// Rows of numbers, one behind another in one list. A row may have any length; all rows together have less than 2^32
/// numbers.
#[derive(Drop)]
pub struct Rows {
    numbers: Vec<u32>,
    /// Where each row ends.
    ends: Vec<u32>,
}

impl Model for Rows {
    ghost use Rattle.std.specs.Prelude.{List, ℕ, length};
    ghost use Rattle.vq_lists.specs.Cut.{AreEnds, rows_from};

    ghost Value = { List (List ℕ) };

    ghost view = { λ a. rows_from a.numbers.items 0 a.ends.items };

    ghost invariant = { λ a. AreEnds 0 a.ends.items (length a.numbers.items) };
}

impl Rows {
    /// No rows. It takes no memory.
    pub fn new(alloc: Global) -> Rows
        ensures { result ≡ [] }
    {
        Rows {
            numbers: Vec::new(alloc),
            ends: Vec::new(alloc),
        }
    }

    /// No rows, with room for so many of them with so many numbers in all. The error is want of memory.
    pub fn with_room(alloc: Global, rows: usize, numbers: usize) -> Result<Rows, AllocError>
        ensures { IfOk result (λ made. made ≡ []) }
    {
        Ok(Rows {
            numbers: Vec::with_capacity(alloc, numbers)?,
            ends: Vec::with_capacity(alloc, rows)?,
        })
    }

    /// Adds a row behind the others. The error is want of memory; more numbers than the rows may have are that too.
    #[inline(always)]
    #[tactic(auto, using(crate::proofs::Cuts::ends_pushed, crate::proofs::Cuts::row_pushed))]
    pub fn push(&mut self, row: &[u32]) -> Result<(), AllocError>
        ensures { OnOk result (self.new ≡ self.old ++ row.now ∷ []) }
    {
        let before = self.numbers.len();
        self.numbers.extend_from_slice(row)?;
        let Ok(end) = u32::try_from(self.numbers.len()) else {
            self.numbers.truncate(before);
            return Err(AllocError);
        };
        if let Err(lack) = self.ends.push(end) {
            // a row that has no end is none
            self.numbers.truncate(before);
            return Err(lack.into());
        }
        Ok(())
    }

    /// How many rows there are.
    #[tactic(auto, using(crate::proofs::Cuts::as_many))]
    pub fn len(&self) -> usize
        ensures { result ≡ length self.now }
    {
        self.ends.len()
    }

    /// A row.
    #[inline(always)]
    #[tactic(auto, using(crate::proofs::Cuts::as_many, crate::proofs::Cuts::row_at, crate::proofs::Cuts::bounds_at))]
    pub fn row(&self, n: usize) -> &[u32]
        requires { n < length self.now }
        ensures { result.now ≡ slice_index_or self.now n [] }
    {
        let start = start_of(self.ends.as_slice(), n);
        let end = self.ends[n];
        &self.numbers[start as usize..end as usize]
    }
}

/// Where a row begins: at the end of the one before it.
#[inline(always)]
fn start_of(ends: &[u32], n: usize) -> u32
    requires { n < length ends.now }
    ensures { result ≡ start_of 0 ends.now n }
{
    if n == 0 { 0 } else { ends[n - 1] }
}
