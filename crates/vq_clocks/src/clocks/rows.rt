//! Rows of numbers, one or two for each lane.
ghost use Rattle.std.specs.Prelude.{◌≡◌, ◌<◌, [], ℕ, max, length, replicate, IfOk};
ghost use Rattle.std.specs.Prelude.{◌==◌, if◌then◌else◌};
ghost use Rattle.std.specs.List.{slice_index_or};
ghost use Rattle.vq_clocks.specs.VectorClocks.{in_row, row_at, Joins, Raises};

use std::alloc::{AllocError, Global};
use std::marker::Model;
use vq_lists::Rows;

/// A number for each lane, or two.
#[derive(Drop)]
pub(crate) struct Row {
    numbers: Vec<u32>,
}

impl Model for Row {
    ghost use Rattle.std.specs.Prelude.{List, ℕ};

    ghost Value = { List ℕ };

    ghost view = { λ a. a.numbers.items };
}

impl Row {
    /// A row of zeros.
    pub(crate) fn new(alloc: Global, numbers: usize) -> Result<Row, AllocError>
        ensures { IfOk result (λ row. row ≡ replicate numbers 0) }
    {
        Ok(Row {
            numbers: vec![in alloc; 0; numbers]?,
        })
    }

    /// Makes each number zero.
    pub(crate) fn clear(&mut self)
        ensures { self.new ≡ replicate (length self.old) 0 }
    {
        clear_all(self.numbers.as_mut_slice());
    }

    /// The numbers, lane by lane.
    pub(crate) fn as_slice(&self) -> &[u32]
        ensures { result.now ≡ self.now }
    {
        self.numbers.as_slice()
    }

    /// Raises each number of a row to that of another one, and one of them to a bound too.
    pub(crate) fn join(&mut self, from: &[u32], lane: usize, bound: u32)
        requires same { length from.now ≡ length self.old }
        requires exists { lane < length self.old }
        ensures { Joins self.old from.now lane bound self.new }
    {
        raise_all(self.numbers.as_mut_slice(), from);
        raise(self.numbers.as_mut_slice(), lane, bound);
    }

    /// Raises one number to a bound.
    pub(crate) fn raise(&mut self, lane: usize, bound: u32)
        requires { lane < length self.old }
        ensures { Raises self.old lane bound self.new }
    {
        raise(self.numbers.as_mut_slice(), lane, bound);
    }
}

/// Makes each number of a row zero.
fn clear_all(row: &mut [u32])
    ensures { row.new ≡ replicate (length row.old) 0 }
{
    for l in 0..row.len() {
        row[l] = 0;
    }
}

/// Raises each number of a row to that of another one.
fn raise_all(row: &mut [u32], from: &[u32])
    requires { length from.now ≡ length row.old }
    ensures { (l : ℕ) → in_row row.new l ≡ max (in_row row.old l) (in_row from.now l) }
{
    for l in 0..row.len() {
        row[l] = row[l].max(from[l]);
    }
}

/// Raises a number of a row to a bound.
fn raise(row: &mut [u32], lane: usize, bound: u32)
    requires { lane < length row.old }
    ensures { (l : ℕ) →
        in_row row.new l ≡ max (in_row row.old l) (if lane == l then bound else 0) }
{
    row[lane] = row[lane].max(bound);
}

/// A number of a row.
pub(crate) fn at(rows: &Rows, n: usize, lane: usize) -> u32
    requires row { n < length rows.now }
    requires lane { lane < length (slice_index_or rows.now n []) }
    ensures { result ≡ row_at rows.now n lane }
{
    rows.row(n)[lane]
}
