//! Lanes of a number to which the same was brought share a clock.
ghost use Rattle.std.specs.Prelude.{◌≡◌, ◌≤◌, ◌<◌, ◌-◌, ◌+◌, ◌&&◌, ◌==◌, false, true, not, if◌then◌else◌, ℕ, IfOk, IsTrue, List, OnOk, length};
ghost use Rattle.vq_capture_clocks.specs.Blocks.{says};
ghost use Rattle.vq_capture_clocks.specs.Cells.{HasTaken, IsBringing, IsTaking, brought_in, cell_in};
ghost use Rattle.vq_capture_clocks.specs.Clocks.{IsBelow, TellsAs, join, no_clock};
ghost use Rattle.vq_capture_clocks.specs.Gone.{gone_place};
ghost use Rattle.vq_capture_clocks.specs.LaneSets.{has_lane};
ghost use Rattle.vq_capture_clocks.specs.Least.{least_in};

use crate::clocks::{Block, is_within, join};
use crate::gone::{GoneLanes, left_of};
use crate::lane_sets::{both, either, has_lane, without};
use crate::least::LeastLines;
use crate::pruning::clear;
use std::alloc::{AllocError, Global};

/// Lanes of a number, to each of which the same was brought.
#[derive(Drop)]
pub struct Group {
    pub lanes: u16,
    pub clock: Vec<Block>,
}

/// Where a clock is brought to: the group that is next, the places that weren't met, and those that have just the clock.
#[derive(Clone, Copy)]
pub struct Bringing {
    at: usize,
    left: u16,
    same: u16,
}

/// What was brought to a place.
pub fn cell_at(groups: &[Group], place: usize) -> &[Block]
    requires { place < 16 }
    ensures { says result.now ≡ cell_in groups.now place }
{
    let mut at = 0;
    while at < groups.len() {
        let group = &groups[at];
        if has_lane(group.lanes, place) {
            return &group.clock;
        }
        at += 1;
    }
    &[]
}

/// Takes what was brought to the lanes of a group, if it has places that weren't met. The result are those left.
fn take_group(
    groups: &[Group],
    at: usize,
    left: u16,
    clock: &mut Vec<Block>,
) -> Result<u16, AllocError>
    requires { at < length groups.now }
    ensures { IfOk result (λ rest. (set : ℕ) → (c : ℕ → ℕ) →
        IsTaking groups.now set c at left (says clock.old.items) →
        IsTaking groups.now set c (at + 1) rest (says clock.new.items)) }
{
    let group = &groups[at];
    if both(left, group.lanes) == 0 {
        return Ok(left);
    }
    join(clock, &group.clock)?;
    Ok(without(left, group.lanes))
}

/// Takes what was brought to the places of a set. The error is want of memory.
pub fn take_groups(groups: &[Group], set: u16, clock: &mut Vec<Block>) -> Result<(), AllocError>
    ensures { OnOk result (HasTaken (cell_in groups.now) set (says clock.old.items) (says clock.new.items)) }
{
    let mut left = set;
    let mut at = 0;
    while at < groups.len() {
        left = take_group(groups, at, left, clock)?;
        at += 1;
    }
    Ok(())
}

impl Group {
    fn join(&mut self, clock: &[Block]) -> Result<(), AllocError>
        ensures lanes { OnOk result (self.new.lanes ≡ self.old.lanes) }
        ensures clock { OnOk result (says self.new.clock.items ≡ join (says self.old.clock.items) (says clock.now)) }
    {
        join(&mut self.clock, clock)
    }

    fn clear(&mut self, least: &LeastLines)
        ensures lanes { self.new.lanes ≡ self.old.lanes }
        ensures clock { TellsAs (least_in least.now) (says self.new.clock.items) (says self.old.clock.items) }
    {
        clear(&mut self.clock, least);
    }

    #[tactic(auto, using(crate::proofs::Cleared::says_empty))]
    fn is_nothing(&self) -> bool
        ensures { IsTrue result → says self.now.clock.items ≡ no_clock }
    {
        self.clock.is_empty()
    }

    /// Keeps those of its lanes that aren't gone.
    fn leave(&mut self, gone: GoneLanes)
        ensures lanes { (p : ℕ) → p < 15 →
            has_lane self.new.lanes p ≡ (has_lane self.old.lanes p && not (gone_place gone p)) }
        ensures clock { self.new.clock ≡ self.old.clock }
    {
        self.lanes = left_of(self.lanes, gone);
    }

    fn narrow(&mut self, rest: u16)
        ensures lanes { self.new.lanes ≡ rest }
        ensures clock { self.new.clock ≡ self.old.clock }
    {
        self.lanes = rest;
    }

    /// Brings a clock to some of its lanes. The result is a group of the others.
    fn cut(
        &mut self,
        alloc: Global,
        hit: u16,
        rest: u16,
        clock: &[Block],
    ) -> Result<Group, AllocError>
        ensures lanes { OnOk result (self.new.lanes ≡ hit) }
        ensures clock { OnOk result (says self.new.clock.items ≡ join (says self.old.clock.items) (says clock.now)) }
        ensures other { IfOk result (λ group. (group.lanes ≡ rest) × (says group.clock.items ≡ says self.old.clock.items)) }
    {
        let other = self.copy(alloc, rest)?;
        self.lanes = hit;
        self.join(clock)?;
        Ok(other)
    }

    /// A group of other lanes to which the same was brought.
    fn copy(&self, alloc: Global, lanes: u16) -> Result<Group, AllocError>
        ensures { IfOk result (λ group. (group.lanes ≡ lanes) × (says group.clock.items ≡ says self.now.clock.items)) }
    {
        Ok(Group {
            lanes,
            clock: Vec::from_slice(alloc, &self.clock)?,
        })
    }
}

/// Brings a clock to the places of a group that weren't met. The result is what is next.
fn bring_at(
    alloc: Global,
    groups: &mut Vec<Group>,
    clock: &[Block],
    state: Bringing,
) -> Result<Bringing, AllocError>
    requires { state.at < length groups.old.items }
    ensures on { IfOk result (λ next. length groups.new.items + (state.at + 1) ≡ length groups.old.items + next.at) }
    ensures kept { IfOk result (λ next. (first : List Group) → (set : ℕ) →
        IsBringing first set (says clock.now) groups.old.items state.at state.left state.same →
        IsBringing first set (says clock.now) groups.new.items next.at next.left next.same) }
{
    let at = state.at;
    let group = &groups[at];
    let hit = both(state.left, group.lanes);
    if hit == 0 {
        return Ok(Bringing {
            at: at + 1,
            left: state.left,
            same: state.same,
        });
    }
    let rest = without(group.lanes, state.left);
    let left = without(state.left, group.lanes);
    if is_within(&group.clock, clock) {
        let same = either(state.same, hit);
        if rest == 0 {
            groups.remove(at);
            return Ok(Bringing { at, left, same });
        }
        groups[at].narrow(rest);
        return Ok(Bringing {
            at: at + 1,
            left,
            same,
        });
    }
    if rest == 0 {
        groups[at].join(clock)?;
        return Ok(Bringing {
            at: at + 1,
            left,
            same: state.same,
        });
    }
    let other = groups[at].cut(alloc, hit, rest, clock)?;
    groups.insert(at + 1, other)?;
    Ok(Bringing {
        at: at + 2,
        left,
        same: state.same,
    })
}

/// Brings a clock to the places of a set. The error is want of memory.
pub fn bring(
    alloc: Global,
    groups: &mut Vec<Group>,
    set: u16,
    clock: &[Block],
) -> Result<(), AllocError>
    ensures { OnOk result ((p : ℕ) → cell_in groups.new.items p ≡
        brought_in (cell_in groups.old.items) set (says clock.now) p) }
{
    let mut state = Bringing {
        at: 0,
        left: set,
        same: 0,
    };
    while state.at < groups.len() {
        state = bring_at(alloc, groups, clock, state)?;
    }
    let lanes = either(state.left, state.same);
    if lanes != 0 {
        let clock = Vec::from_slice(alloc, clock)?;
        groups.insert(0, Group { lanes, clock })?;
    }
    Ok(())
}

/// Leaves out what a group's clock says, but what lines from a number on ask of it.
fn clear_group(groups: &mut Vec<Group>, at: usize, least: &LeastLines)
    requires { at < length groups.old.items }
    ensures same { (p : ℕ) → TellsAs (least_in least.now) (cell_in groups.new.items p) (cell_in groups.old.items p) }
    ensures wide { length groups.new.items ≡ length groups.old.items }
{
    groups[at].clear(least);
}

/// Leaves out what was brought to places, but what lines from a number on ask of it.
pub fn clear_groups(groups: &mut Vec<Group>, least: &LeastLines)
    ensures { (p : ℕ) → TellsAs (least_in least.now) (cell_in groups.new.items p) (cell_in groups.old.items p) }
{
    let mut at = 0;
    while at < groups.len() {
        clear_group(groups, at, least);
        at += 1;
    }
}

/// Forgets what was brought to the places of a group that are gone.
fn leave_group(groups: &mut Vec<Group>, at: usize, gone: GoneLanes)
    requires { at < length groups.old.items }
    ensures same { (p : ℕ) → p < 15 → gone_place gone p ≡ false →
        cell_in groups.new.items p ≡ cell_in groups.old.items p }
    ensures wide { length groups.new.items ≡ length groups.old.items }
{
    groups[at].leave(gone);
}

/// Forgets the groups that have no lanes.
fn drop_empty(groups: &mut Vec<Group>)
    ensures { (p : ℕ) → cell_in groups.new.items p ≡ cell_in groups.old.items p }
{
    groups.retain(|group| group.lanes != 0);
}

/// Forgets what was brought to places that are gone.
pub fn leave_groups(groups: &mut Vec<Group>, gone: GoneLanes)
    ensures { (p : ℕ) → p < 15 → gone_place gone p ≡ false →
        cell_in groups.new.items p ≡ cell_in groups.old.items p }
{
    let mut at = 0;
    while at < groups.len() {
        leave_group(groups, at, gone);
        at += 1;
    }
    drop_empty(groups);
}

/// Whether no group's clock says anything.
pub fn says_nothing(groups: &[Group]) -> bool
    ensures { IsTrue result → (p : ℕ) → cell_in groups.now p ≡ no_clock }
{
    for group in groups {
        if !group.is_nothing() {
            return false;
        }
    }
    true
}

/// How many blocks the clocks of groups have.
pub fn blocks_in(groups: &[Group]) -> usize {
    let mut count: usize = 0;
    for group in groups {
        count = count.saturating_add(group.clock.len());
    }
    count
}
