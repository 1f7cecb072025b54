//! What was brought to lanes, by their numbers.
ghost use Rattle.std.specs.Prelude.{◌≡◌, ◌<◌, ◌+◌, ◌*◌, ◌/◌, ◌%◌, false, true, [], ℕ, IfOk, IsTrue, OnOk, None};
ghost use Rattle.std.specs.Option.{MatchOption};
ghost use Rattle.std.specs.Ordering.{nat_cmp};
ghost use Rattle.std.specs.BTreeMap.{get};
ghost use Rattle.vq_capture_clocks.specs.Blocks.{says};
ghost use Rattle.vq_capture_clocks.specs.Cells.{HasTaken, brought_in, cell_in, cells_of, given_in};
ghost use Rattle.vq_capture_clocks.specs.Clocks.{TellsAs, give_lanes, no_clock, take_lanes};
ghost use Rattle.vq_capture_clocks.specs.Gone.{gone_place, is_gone};
ghost use Rattle.vq_capture_clocks.specs.LaneSets.{has_lane, set_lanes};
ghost use Rattle.vq_capture_clocks.specs.Least.{least_in};

use crate::clocks::{Block, raise};
use crate::gone::{GoneLanes, gone_at};
use crate::groups::{
    Group, blocks_in, bring, cell_at, clear_groups, leave_groups, says_nothing, take_groups,
};
use crate::least::LeastLines;
use std::alloc::{AllocError, Global};
use std::collections::BTreeMap;

/// What was brought to the lanes of a number.
#[derive(Drop)]
pub struct SiteCells {
    pub groups: Vec<Group>,
}

/// What was brought to a lane.
pub fn brought(cells: &BTreeMap<usize, SiteCells>, lane: usize) -> &[Block]
    ensures { says result.now ≡ cells_of cells.now lane }
{
    match cells.get(&(lane / 15)) {
        Some(site) => cell_at(&site.groups, lane % 15),
        None => &[],
    }
}

impl SiteCells {
    /// Brings a clock to the places of a set.
    fn bring(&mut self, alloc: Global, set: u16, clock: &[Block]) -> Result<(), AllocError>
        ensures { OnOk result ((p : ℕ) → cell_in self.new.groups.items p ≡
            brought_in (cell_in self.old.groups.items) set (says clock.now) p) }
    {
        bring(alloc, &mut self.groups, set, clock)
    }

    /// Leaves out what was brought, but what lines from a number on ask of it. Whether nothing is left.
    fn clear(&mut self, gone: GoneLanes, least: &LeastLines) -> bool
        ensures same { (p : ℕ) → p < 15 → gone_place gone p ≡ false →
            TellsAs (least_in least.now) (cell_in self.new.groups.items p) (cell_in self.old.groups.items p) }
        ensures nothing { IsTrue result → (p : ℕ) → cell_in self.new.groups.items p ≡ no_clock }
    {
        if gone.queue || gone.thread {
            leave_groups(&mut self.groups, gone);
        }
        clear_groups(&mut self.groups, least);
        says_nothing(&self.groups)
    }

    /// What is brought where nothing was.
    fn first(alloc: Global, set: u16, clock: &[Block]) -> Result<SiteCells, AllocError>
        ensures { IfOk result (λ site. (p : ℕ) → cell_in site.groups.items p ≡
            brought_in (cell_in []) set (says clock.now) p) }
    {
        let mut groups = Vec::new(alloc);
        bring(alloc, &mut groups, set, clock)?;
        Ok(SiteCells { groups })
    }
}

/// Brings a clock to the lanes of a number that are in a set.
fn bring_in(
    alloc: Global,
    cells: &mut BTreeMap<usize, SiteCells>,
    number: usize,
    set: u16,
    clock: &[Block],
) -> Result<(), AllocError>
    ensures { OnOk result ((k : ℕ) → cells_of cells.new k ≡
        given_in (cells_of cells.old) number set (says clock.now) k) }
{
    if let Some(site) = cells.get_mut(&number) {
        site.bring(alloc, set, clock)?;
        return Ok(());
    }
    let site = SiteCells::first(alloc, set, clock)?;
    cells.insert(number, site)?;
    Ok(())
}

/// Brings a clock to the lanes of a number that are in a set. The error is want of memory.
pub fn bring_all(
    alloc: Global,
    cells: &mut BTreeMap<usize, SiteCells>,
    number: usize,
    set: u16,
    clock: &[Block],
) -> Result<(), AllocError>
    ensures { OnOk result
        (cells_of cells.new ≡ give_lanes (cells_of cells.old) (says clock.now) (set_lanes number set)) }
{
    bring_in(alloc, cells, number, set, clock)?;
    Ok(())
}

/// Takes what was brought to the lanes of a number that are in a set.
fn take_in(
    cells: &BTreeMap<usize, SiteCells>,
    clock: &mut Vec<Block>,
    number: usize,
    set: u16,
) -> Result<(), AllocError>
    requires { (p : ℕ) → has_lane set p ≡ true → p < 15 }
    ensures { OnOk result
        (HasTaken (λ p. cells_of cells.now (15 * number + p)) set (says clock.old.items) (says clock.new.items)) }
{
    match cells.get(&number) {
        Some(site) => {
            take_groups(&site.groups, set, clock)?;
            Ok(())
        }
        None => Ok(()),
    }
}

/// Takes what was brought to the lanes of a number that are in a set, at a line. The error is want of memory.
pub fn take_all(
    cells: &BTreeMap<usize, SiteCells>,
    line: u64,
    clock: &mut Vec<Block>,
    number: usize,
    set: u16,
) -> Result<(), AllocError>
    requires { (p : ℕ) → has_lane set p ≡ true → p < 15 }
    ensures { OnOk result
        (says clock.new.items ≡ take_lanes (cells_of cells.now) line (says clock.old.items) (set_lanes number set)) }
{
    take_in(cells, clock, number, set)?;
    raise(clock, number, set, line)?;
    Ok(())
}

/// Leaves out what was brought to lanes of a number, but what lines from a number on ask of it where it isn't gone.
fn clear_site(
    cells: &mut BTreeMap<usize, SiteCells>,
    gone: &[GoneLanes],
    number: usize,
    least: &LeastLines,
) -> Result<(), AllocError>
    ensures { OnOk result ((k : ℕ) → is_gone gone.now k ≡ false →
        TellsAs (least_in least.now) (cells_of cells.new k) (cells_of cells.old k)) }
{
    let Some(mut site) = cells.remove(&number) else {
        return Ok(());
    };
    if site.clear(gone_at(gone, number), least) {
        return Ok(());
    }
    cells.insert(number, site)?;
    Ok(())
}

/// Leaves out what was brought to lanes, but what lines from a number on ask of those that aren't gone. The error is
/// want of memory.
pub fn clear_cells(
    alloc: Global,
    cells: &mut BTreeMap<usize, SiteCells>,
    gone: &[GoneLanes],
    least: &LeastLines,
) -> Result<(), AllocError>
    ensures { OnOk result ((k : ℕ) → is_gone gone.now k ≡ false →
        TellsAs (least_in least.now) (cells_of cells.new k) (cells_of cells.old k)) }
{
    let mut numbers = Vec::new(alloc);
    for number in cells.keys() {
        numbers.push(*number)?;
    }
    for number in &numbers {
        clear_site(cells, gone, *number, least)?;
    }
    Ok(())
}

/// How many blocks the clocks have that were brought to lanes, and one for each number.
pub fn blocks_of(cells: &BTreeMap<usize, SiteCells>) -> usize {
    let mut count = cells.len();
    for site in cells.values() {
        count = count.saturating_add(blocks_in(&site.groups));
    }
    count
}
