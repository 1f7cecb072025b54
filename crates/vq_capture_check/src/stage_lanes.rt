//! The lanes that a step takes and gives, as sets of the lanes of its sites.
ghost use Rattle.std.specs.Prelude.{◌≡◌, ◌<◌, ◌++◌, ◌+◌, ◌*◌, ◌%◌, ◌∷◌, [], true, false, ℕ, Bool, List, OnOk, IfOk, length};
ghost use Rattle.std.specs.List.{slice_index_or};
ghost use Rattle.vq_capture.specs.Before.{follows_them, is_semaphore_operation};
ghost use Rattle.vq_capture.specs.Points.{gives, takes};
ghost use Rattle.vq_capture_check.specs.Clocks.{cells_of, give_lanes, says, take_lanes};
ghost use Rattle.vq_capture_check.specs.Lanes.{given, last_if, own_given, own_taken, stage_flags, stage_lanes, taken};
ghost use Rattle.vq_capture_check.specs.Watching.{whole};
ghost use Rattle.vq_capture_clocks.specs.LaneSets.{has_lane, set_lanes};

use crate::lanes::is_told;
use std::alloc::{AllocError, Global};
use std::collections::BTreeMap;
use vq_capture::capture::Step;
use vq_capture::stage::StageMask;
use vq_capture_clocks::cells::{SiteCells, bring_all, take_all};
use vq_capture_clocks::clocks::Block;
use vq_capture_clocks::lane_sets::{either, lane_at};
use vq_capture_touched::joins::{follows_them, gives, is_semaphore_operation, takes};
use vq_capture_touched::touch::StepLanes;

/// A set with one more place, if a test holds.
#[inline(always)]
fn put(set: u16, test: bool, place: usize) -> u16
    requires { place < 16 }
    ensures { (flags : List Bool) → length flags ≡ place →
        ((p : ℕ) → has_lane set p ≡ slice_index_or flags p false) → (p : ℕ) →
        has_lane result p ≡ slice_index_or (flags ++ test ∷ []) p false }
{
    if test {
        either(set, lane_at(place))
    } else {
        set
    }
}

/// The places of some stages, and that of the order of semaphore operations, if a test holds.
fn stage_set(mask: &StageMask, last: bool) -> u16
    ensures { (p : ℕ) → has_lane result p ≡ slice_index_or (stage_flags mask.now last) p false }
{
    let set = put(0, mask.begin, 0);
    let set = put(set, mask.indirect, 1);
    let set = put(set, mask.input, 2);
    let set = put(set, mask.vertex, 3);
    let set = put(set, mask.early, 4);
    let set = put(set, mask.fragment, 5);
    let set = put(set, mask.late, 6);
    let set = put(set, mask.color, 7);
    let set = put(set, mask.compute, 8);
    let set = put(set, mask.copy, 9);
    let set = put(set, mask.host, 10);
    let set = put(set, mask.other, 11);
    let set = put(set, mask.end, 12);
    put(set, last, 13)
}

/// Takes what was brought to lanes of a queue, at a line.
fn take_queue(
    cells: &BTreeMap<usize, SiteCells>,
    line: u64,
    clock: &mut Vec<Block>,
    first: usize,
    mask: &StageMask,
    last: bool,
) -> Result<(), AllocError>
    requires { first % 15 ≡ 0 }
    ensures { OnOk result (says clock.new.items ≡
        take_lanes (cells_of cells.now) line (says clock.old.items)
        (stage_lanes first mask.now ++ last_if last first)) }
{
    let set = stage_set(mask, last);
    if set == 0 {
        return Ok(());
    }
    take_all(cells, line, clock, first / 15, set)?;
    Ok(())
}

/// Takes what was brought to the last lane of a site, if a test holds, at a line.
fn take_last(
    cells: &BTreeMap<usize, SiteCells>,
    line: u64,
    clock: &mut Vec<Block>,
    test: bool,
    first: usize,
) -> Result<(), AllocError>
    ensures { OnOk result (says clock.new.items ≡
        take_lanes (cells_of cells.now) line (says clock.old.items) (last_if test first)) }
{
    if !test {
        return Ok(());
    }
    let Some(lane) = first.checked_add(13) else {
        return Err(AllocError);
    };
    take_all(cells, line, clock, lane / 15, lane_at(lane % 15))?;
    Ok(())
}

/// Takes what was brought to the lanes of a step's queue that it takes.
fn take_own(
    cells: &BTreeMap<usize, SiteCells>,
    clock: &mut Vec<Block>,
    at: StepLanes,
    step: &Step,
) -> Result<(), AllocError>
    requires { at.queue % 15 ≡ 0 }
    ensures { OnOk result (says clock.new.items ≡
        take_lanes (cells_of cells.now) step.now.line (says clock.old.items) (own_taken at (whole step.now))) }
{
    if step.queue.is_none() {
        return Ok(());
    }
    let mask = takes(step, None);
    take_queue(
        cells,
        step.line,
        clock,
        at.queue,
        &mask,
        follows_them(&step.statement),
    )
}

/// Takes what was brought to the lanes that a step takes, at its line. The error is want of memory.
pub fn take_taken(
    cells: &BTreeMap<usize, SiteCells>,
    clock: &mut Vec<Block>,
    at: StepLanes,
    step: &Step,
) -> Result<(), AllocError>
    requires { at.queue % 15 ≡ 0 }
    ensures { OnOk result (says clock.new.items ≡
        take_lanes (cells_of cells.now) step.now.line (says clock.old.items) (taken at (whole step.now))) }
{
    take_own(cells, clock, at, step)?;
    take_last(cells, step.line, clock, step.thread.is_some(), at.thread)?;
    take_last(cells, step.line, clock, is_told(&step.statement), at.after)?;
    Ok(())
}

/// Brings a clock to lanes of a queue.
fn give_queue(
    alloc: Global,
    cells: &mut BTreeMap<usize, SiteCells>,
    first: usize,
    mask: &StageMask,
    last: bool,
    clock: &[Block],
) -> Result<(), AllocError>
    requires { first % 15 ≡ 0 }
    ensures { OnOk result (cells_of cells.new ≡
        give_lanes (cells_of cells.old) (says clock.now) (stage_lanes first mask.now ++ last_if last first)) }
{
    let set = stage_set(mask, last);
    if set == 0 {
        return Ok(());
    }
    bring_all(alloc, cells, first / 15, set, clock)?;
    Ok(())
}

/// Brings a clock to the last lane of a site, if a test holds.
fn give_last(
    alloc: Global,
    cells: &mut BTreeMap<usize, SiteCells>,
    test: bool,
    first: usize,
    clock: &[Block],
) -> Result<(), AllocError>
    ensures { OnOk result (cells_of cells.new ≡
        give_lanes (cells_of cells.old) (says clock.now) (last_if test first)) }
{
    if !test {
        return Ok(());
    }
    let Some(lane) = first.checked_add(13) else {
        return Err(AllocError);
    };
    bring_all(alloc, cells, lane / 15, lane_at(lane % 15), clock)?;
    Ok(())
}

/// Brings a clock to the lanes of a step's queue that it gives.
fn give_own(
    alloc: Global,
    cells: &mut BTreeMap<usize, SiteCells>,
    at: StepLanes,
    step: &Step,
    clock: &[Block],
) -> Result<(), AllocError>
    requires { at.queue % 15 ≡ 0 }
    ensures { OnOk result (cells_of cells.new ≡
        give_lanes (cells_of cells.old) (says clock.now) (own_given at (whole step.now))) }
{
    if step.queue.is_none() {
        return Ok(());
    }
    let mask = gives(step, None);
    give_queue(
        alloc,
        cells,
        at.queue,
        &mask,
        is_semaphore_operation(&step.statement),
        clock,
    )
}

/// Brings a clock to the lanes that a step gives. The error is want of memory.
pub fn give_given(
    alloc: Global,
    cells: &mut BTreeMap<usize, SiteCells>,
    at: StepLanes,
    step: &Step,
    clock: &[Block],
) -> Result<(), AllocError>
    requires { at.queue % 15 ≡ 0 }
    ensures { OnOk result (cells_of cells.new ≡
        give_lanes (cells_of cells.old) (says clock.now) (given at (whole step.now))) }
{
    give_own(alloc, cells, at, step, clock)?;
    give_last(alloc, cells, step.thread.is_some(), at.thread, clock)?;
    Ok(())
}
