//! Going through all commands in the order of the slow run, cell by cell. As happens-before agrees
//! with that order, it is enough to ask whether what has touched a cell before comes before. It ends
//! early where there are so many cells that comparing all pairs of commands is quicker.
ghost use Rattle.std.specs.Prelude.{◌≡◌, ◌<◌, ◌+◌, true, false, length, IfOk, OnOk};
ghost use Rattle.vq_model.specs.Plan.{commands_of};
ghost use Rattle.vq_model.specs.SlowRun.{slow_order};
ghost use Rattle.vq_order.specs.Accessed.{HasNoRaceBelow};
ghost use Rattle.std.specs.List.Sorted.{IsNonDecreasing};
ghost use Rattle.vq_order.specs.CellRanges.{AreFirstCells};
ghost use Rattle.vq_order.specs.CommandCells.{AreCuts, TouchesAmong, TouchesIn};
ghost use Rattle.vq_order.specs.Swept.{is_write, AreUntouched, FitsSweep, IsOfJob, ReadsCell, Sweeps};
ghost use Rattle.vq_order.specs.Swept.{TouchesBy, TouchesSpan};
ghost use Rattle.vq_clocks.specs.VectorClocks.{IsComplete};

use crate::races::accesses::{MemoryAccess, Span, Visitor, access_of, command_access};
use crate::races::cells::{Cell, Halt, Known, Touch};
use crate::races::cuts::{Reach, count_cells, first_buffers, first_cells, reach_of};
use std::alloc::{AllocError, Global};
use vq_clocks::Clocked;

/// With more cells than this to go through for each command of the plan, on the average, comparing
/// all pairs of commands is quicker.
const MOST_CELLS: usize = 32;

/// Where a range has more cells than this, those of all commands are counted before it is gone through.
const MANY_CELLS: usize = 128;

/// How many cells may still be gone through, and whether those of all commands were counted.
#[derive(Drop)]
struct Allowance {
    left: usize,
    is_counted: bool,
}

/// Counts cells down from how many may still be gone through. The error is that they are more.
fn count_down(left: &mut usize, cells: usize) -> Result<(), Halt>
    ensures { OnOk result (left.new + cells ≡ left.old) }
{
    match left.checked_sub(cells) {
        Some(rest) => {
            *left = rest;
            Ok(())
        }
        None => Err(Halt::TooMany),
    }
}

/// What stays the same while commands are gone through.
#[derive(Clone, Copy)]
struct Sweep<'a> {
    /// The order of the jobs.
    order: &'a Clocked,
    /// Where cells begin.
    cuts: &'a [u64],
    /// The first cell of each of the first buffers.
    firsts: &'a [usize],
    /// How many first commands are gone through.
    count: u32,
    /// How many cells may be gone through.
    most: usize,
}

impl Sweep<'_> {
    /// Counts the cells of all commands, and touches none. The error is that they are too many.
    #[inline(never)]
    fn count_all(&self) -> Result<(), Halt>
        requires rise { IsNonDecreasing self.now.cuts.now }
        requires firsts { AreFirstCells self.now.cuts.now self.now.firsts.now }
    {
        let mut left = self.most;
        for c in 0..self.count.min(self.order.plan().commands()) {
            let access = command_access(self.order, c);
            count_down(
                &mut left,
                count_cells(self.cuts, self.firsts, access.written),
            )?;
            if let Some(read) = access.read {
                count_down(&mut left, count_cells(self.cuts, self.firsts, read))?;
            }
        }
        Ok(())
    }

    /// Allows so many cells to be gone through. Where they are many, the cells of all commands are
    /// counted first, once: so few are touched where all are too many.
    #[inline(always)]
    fn allow(&self, allowance: &mut Allowance, cells: usize) -> Result<(), Halt>
        requires rise { IsNonDecreasing self.now.cuts.now }
        requires firsts { AreFirstCells self.now.cuts.now self.now.firsts.now }
    {
        if cells > MANY_CELLS && !allowance.is_counted {
            allowance.is_counted = true;
            self.count_all()?;
        }
        count_down(&mut allowance.left, cells)
    }

    /// Goes through the cells of a range, unless they are more than are left.
    fn range(
        &self,
        alloc: Global,
        cells: &mut [Cell],
        span: Span,
        by: Visitor,
        touch: Touch,
        allowance: &mut Allowance,
    ) -> Result<(), Halt>
        requires fits { FitsSweep self.now.order.now self.now.cuts.now self.now.firsts.now cells.old }
        requires own { IsOfJob self.now.order.now by }
        ensures { OnOk result (Sweeps self.now.order.now cells.old cells.new
            (TouchesSpan self.now.cuts.now span by (is_write touch))) }
    {
        let Reach { first, end } = reach_of(self.cuts, self.firsts, span);
        self.allow(allowance, end.saturating_sub(first))?;
        let mut known = Known {
            writer: by,
            reader: by,
        };
        for k in first..end {
            cells[k].touch(alloc, self.order, by, touch, &mut known)?;
        }
        Ok(())
    }

    /// Goes through the cells that a command reads.
    fn read(
        &self,
        alloc: Global,
        cells: &mut [Cell],
        access: &MemoryAccess,
        allowance: &mut Allowance,
    ) -> Result<(), Halt>
        requires fits { FitsSweep self.now.order.now self.now.cuts.now self.now.firsts.now cells.old }
        requires own { IsOfJob self.now.order.now access.now.by }
        ensures { OnOk result (Sweeps self.now.order.now cells.old cells.new
            (ReadsCell self.now.cuts.now access.now)) }
    {
        match access.read {
            Some(read) => self.range(alloc, cells, read, access.by, Touch::Reads, allowance),
            None => Ok(()),
        }
    }

    /// Goes through the cells of a command.
    fn command(
        &self,
        alloc: Global,
        cells: &mut [Cell],
        access: &MemoryAccess,
        allowance: &mut Allowance,
    ) -> Result<(), Halt>
        requires fits { FitsSweep self.now.order.now self.now.cuts.now self.now.firsts.now cells.old }
        requires own { IsOfJob self.now.order.now access.now.by }
        ensures { OnOk result (Sweeps self.now.order.now cells.old cells.new
            (TouchesBy self.now.cuts.now access.now)) }
    {
        self.read(alloc, cells, access, allowance)?;
        self.range(
            alloc,
            cells,
            access.written,
            access.by,
            Touch::Writes,
            allowance,
        )
    }

    /// Goes through those commands of a job that are among the first ones of the plan.
    fn job(
        &self,
        alloc: Global,
        cells: &mut [Cell],
        j: u32,
        allowance: &mut Allowance,
    ) -> Result<(), Halt>
        requires fits { FitsSweep self.now.order.now self.now.cuts.now self.now.firsts.now cells.old }
        requires exists { j < length self.now.order.now.jobs }
        ensures { OnOk result (Sweeps self.now.order.now cells.old cells.new
            (TouchesAmong self.now.order.now self.now.cuts.now self.now.count
            (commands_of self.now.order.now j))) }
    {
        let plan = self.order.plan();
        for c in plan.commands_of(j) {
            if *c < self.count {
                self.command(alloc, cells, &access_of(plan, *c, j), allowance)?;
            }
        }
        Ok(())
    }

    /// Goes through the first commands of the plan, in the order of the slow run.
    fn jobs(&self, alloc: Global, cells: &mut [Cell], allowance: &mut Allowance) -> Result<(), Halt>
        requires fits { FitsSweep self.now.order.now self.now.cuts.now self.now.firsts.now cells.old }
        ensures swept { OnOk result (Sweeps self.now.order.now cells.old cells.new
            (TouchesIn self.now.order.now self.now.cuts.now self.now.count
            (slow_order self.now.order.now))) }
        ensures complete { IsComplete self.now.order.now }
    {
        for j in self.order.slow_order() {
            self.job(alloc, cells, *j, allowance)?;
        }
        Ok(())
    }
}

/// Cells that nothing has touched.
fn untouched(alloc: Global, count: usize) -> Result<Vec<Cell>, AllocError>
    ensures count { IfOk result (λ cells. length cells.items ≡ count) }
    ensures untouched { IfOk result (λ cells. AreUntouched cells.items) }
{
    let mut cells = Vec::with_capacity(alloc, count)?;
    for _ in 0..count {
        cells.push(Cell::new(alloc))?;
    }
    Ok(cells)
}

/// Goes through so many first commands of a plan, in the order of the slow run; cells begin at these
/// cuts. The error is a command that comes after one that it conflicts with and that isn't
/// before it, too many cells, or want of memory.
pub(crate) fn go_through(
    alloc: Global,
    order: &Clocked,
    cuts: &[u64],
    count: u32,
) -> Result<(), Halt>
    requires { AreCuts order.now cuts.now }
    ensures { OnOk result (HasNoRaceBelow order.now count) }
{
    let mut cells = untouched(alloc, cuts.len())?;
    let firsts = first_cells(alloc, cuts, first_buffers(order))?;
    let most = MOST_CELLS.saturating_mul(order.plan().commands() as usize);
    let sweep = Sweep {
        order,
        cuts,
        firsts: firsts.as_slice(),
        count,
        most,
    };
    let mut allowance = Allowance {
        left: most,
        is_counted: false,
    };
    sweep.jobs(alloc, cells.as_mut_slice(), &mut allowance)
}
