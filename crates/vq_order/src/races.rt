//! Races: commands of a plan that conflict, neither before the other.
ghost use Rattle.std.specs.Prelude.{◌≡◌, ◌<◌, ◌↔◌, Some, length, IfOk, IsTrue};
ghost use Rattle.vq_model.specs.Checks.{IsRaceAt};
ghost use Rattle.vq_order.specs.Accessed.{AreAccesses, AreAllInOrder, HasNoRaceBelow, IsFirstRacing};
ghost use Rattle.vq_order.specs.CommandCells.{AreCuts};
ghost use Rattle.vq_order.specs.LeastLines.{AreLeastOrNone};
ghost use Rattle.vq_order.specs.Swept.{AreInOrder, IsOfJob};

mod accesses;
mod cells;
mod cuts;
mod sweep;

use crate::lines::Lines;
use crate::races::accesses::{MemoryAccess, Visitor, all_accesses, conflict};
use crate::races::cells::{Halt, is_at_or_before};
use crate::races::cuts::{first_buffers, make_cuts};
use crate::races::sweep::go_through;
use std::alloc::{AllocError, Global};
use vq_clocks::Clocked;

/// Whether two commands are of one job, or one of them happens before the other.
fn are_in_order(order: &Clocked, a: Visitor, b: Visitor) -> bool
    requires first { IsOfJob order.now a }
    requires second { IsOfJob order.now b }
    ensures { IsTrue result ↔ AreInOrder order.now a b }
{
    is_at_or_before(order, a, b) || is_at_or_before(order, b, a)
}

/// The first command with a lower number that races with a command. Commands of one job stand
/// together, and what happens before one of them happens before its later ones. So it is enough to
/// remember the job of the last command that was found to be in order with this one.
fn first_racing(order: &Clocked, accesses: &[MemoryAccess], d: u32) -> Option<u32>
    requires accesses { AreAccesses order.now accesses.now }
    requires exists { d < length accesses.now }
    ensures { IsFirstRacing order.now accesses.now d result }
{
    let access = &accesses[d as usize];
    let mut in_order = access.by.job;
    for c in 0..d {
        let other = &accesses[c as usize];
        if other.by.job == in_order {
            continue;
        }
        if !conflict(other, access) {
            continue;
        }
        if !are_in_order(order, other.by, access.by) {
            return Some(c);
        }
        in_order = other.by.job;
    }
    None
}

/// Whether all commands with a lower number are in order with a command.
fn are_all_in_order(order: &Clocked, accesses: &[MemoryAccess], d: u32) -> bool
    requires accesses { AreAccesses order.now accesses.now }
    requires exists { d < length accesses.now }
    ensures { IsTrue result → AreAllInOrder order.now accesses.now d d }
{
    let by = accesses[d as usize].by;
    let mut in_order = by.job;
    for c in 0..d {
        let other = accesses[c as usize].by;
        if other.job == in_order {
            continue;
        }
        if !are_in_order(order, other, by) {
            return false;
        }
        in_order = other.job;
    }
    true
}

/// Whether this job is the one that is remembered.
fn is_remembered(remembered: Option<u32>, job: u32) -> bool
    ensures { IsTrue result → remembered ≡ Some job }
{
    match remembered {
        Some(other) => other == job,
        None => false,
    }
}

/// The least pair of lines of commands that race, or none, where the first commands don't. A job is
/// remembered of which a command is in order with all before it: so are its further commands, which
/// come later in it, and they race with none.
fn least_race(order: &Clocked, accesses: &[MemoryAccess], clean: u32) -> Option<Lines>
    requires accesses { AreAccesses order.now accesses.now }
    requires all { length accesses.now ≡ length order.now.commands }
    requires clean { HasNoRaceBelow order.now clean }
    ensures { AreLeastOrNone (IsRaceAt order.now) result }
{
    let plan = order.plan();
    let mut quiet = None;
    for d in clean..plan.commands() {
        let job = accesses[d as usize].by.job;
        if is_remembered(quiet, job) {
            continue;
        }
        if are_all_in_order(order, accesses, d) {
            quiet = Some(job);
            continue;
        }
        quiet = None;
        if let Some(c) = first_racing(order, accesses, d) {
            return Some(Lines {
                first: plan.command(c).line,
                second: plan.command(d).line,
            });
        }
    }
    None
}

/// The least pair of lines of commands that race, or none, where the first commands don't. What all
/// commands read and write is listed for it.
fn least_race_from(alloc: Global, order: &Clocked, clean: u32) -> Result<Option<Lines>, AllocError>
    requires { HasNoRaceBelow order.now clean }
    ensures { IfOk result (AreLeastOrNone (IsRaceAt order.now)) }
{
    let accesses = all_accesses(alloc, order)?;
    Ok(least_race(order, accesses.as_slice(), clean))
}

/// Whether going through the first commands once finds no conflict out of order and not too many
/// cells.
fn is_clean(alloc: Global, order: &Clocked, cuts: &[u64], count: u32) -> Result<bool, AllocError>
    requires { AreCuts order.now cuts.now }
    ensures { IfOk result (λ clean. IsTrue clean → HasNoRaceBelow order.now count) }
{
    match go_through(alloc, order, cuts, count) {
        Ok(()) => Ok(true),
        Err(Halt::Conflict(_) | Halt::TooMany) => Ok(false),
        Err(Halt::Memory(error)) => Err(error),
    }
}

/// With no more commands than this left of a search by halves, comparing pairs is quicker.
const FEW_COMMANDS: u32 = 256;

/// A number of commands, the first ones, of which no two race. The search is by halves, so where not
/// all are such ones, one of the next few races with one of them, unless there were too many cells.
/// It begins where a conflict was found: mostly the slow run goes in the order of the script, and no
/// two commands before that one race.
fn count_clean(alloc: Global, order: &Clocked, cuts: &[u64], found: u32) -> Result<u32, AllocError>
    requires { AreCuts order.now cuts.now }
    ensures { IfOk result (HasNoRaceBelow order.now) }
{
    let mut low = 0;
    let mut high = order.plan().commands();
    let found = found.min(high);
    if is_clean(alloc, order, cuts, found)? {
        low = found;
    } else {
        high = found;
    }
    while high - low > FEW_COMMANDS {
        let middle = low + (high - low) / 2;
        if is_clean(alloc, order, cuts, middle)? {
            low = middle;
        } else {
            high = middle;
        }
    }
    Ok(low)
}

/// The least pair of lines of commands that race, by the second line and then by the first, or
/// none. Commands are gone through cell by cell. Where that finds a race, the second command is
/// looked for by halves, and compared with each one before it. Where there are too many cells, each
/// command is compared with each one before it.
pub(crate) fn first_race(alloc: Global, order: &Clocked) -> Result<Option<Lines>, AllocError>
    ensures { IfOk result (AreLeastOrNone (IsRaceAt order.now)) }
{
    let cuts = make_cuts(alloc, order, first_buffers(order))?;
    let cuts = cuts.as_slice();
    match go_through(alloc, order, cuts, order.plan().commands()) {
        Ok(()) => Ok(None),
        Err(Halt::Conflict(found)) => {
            let clean = count_clean(alloc, order, cuts, found)?;
            least_race_from(alloc, order, clean)
        }
        Err(Halt::TooMany) => least_race_from(alloc, order, 0),
        Err(Halt::Memory(error)) => Err(error),
    }
}
