//! Waits of immediate batches whose signals may not be pending.
ghost use Rattle.std.specs.Prelude.{◌≡◌, ◌<◌, ◌↔◌, IsTrue, true, length};
ghost use Rattle.vq_model.specs.Checks.{IsNotPendingAt, is_immediate_batch};
ghost use Rattle.vq_order.specs.LeastLines.{AreLeastOrNone};
ghost use Rattle.vq_order.specs.Pending.{IsAhead, IsAheadIn, IsMadeBefore, IsSureBefore, MayComeLate};
ghost use Rattle.vq_order.specs.Unreached.{IsLeastOrNone};

use crate::lines::{Lines, lower};
use vq_clocks::Clocked;
use vq_model::plan::{Lane, Need};

/// Whether a job is a host step or a batch of an immediate queue, written before another.
fn is_made_before(order: &Clocked, i: u32, j: u32) -> bool
    requires exists { i < length order.now.jobs }
    ensures { IsTrue result ↔ IsMadeBefore order.now i j }
{
    if i < j {
        match order.job(i).lane {
            Lane::Host => true,
            Lane::Queue(_) => order.is_immediate(i),
        }
    } else {
        false
    }
}

/// Whether a signal is sure for a host step before a batch. What is sure for one is sure for the last.
fn is_sure_before(order: &Clocked, op: u32, j: u32) -> bool
    requires op_exists { op < length order.now.ops }
    requires exists { j < length order.now.jobs }
    requires immediate { is_immediate_batch order.now j ≡ true }
    ensures { IsTrue result ↔ IsSureBefore order.now op j }
{
    match order.job(j).host_before {
        Some(step) => order.is_sure(op, step),
        None => false,
    }
}

/// Whether a signal may come late for an immediate batch: it is made by no host step and no immediate
/// batch before it, and it is sure for no host step before it.
fn may_come_late(order: &Clocked, op: u32, j: u32) -> bool
    requires op_exists { op < length order.now.ops }
    requires exists { j < length order.now.jobs }
    requires immediate { is_immediate_batch order.now j ≡ true }
    ensures { IsTrue result ↔ MayComeLate order.now op j }
{
    if is_made_before(order, order.op(op).job, j) {
        false
    } else {
        !is_sure_before(order, op, j)
    }
}

/// The line of an immediate batch's need, twice, if its signal may come late.
fn ahead(order: &Clocked, j: u32, need: &Need) -> Option<Lines>
    requires exists { j < length order.now.jobs }
    requires chain { need.now.chain < length order.now.chains }
    requires immediate { is_immediate_batch order.now j ≡ true }
    ensures { AreLeastOrNone (IsAhead order.now j need.now) result }
{
    if need.value <= order.initial(need.chain) {
        return None;
    }
    let op = order.plan().resolver(need.chain, need.value)?;
    if may_come_late(order, op, j) {
        Some(Lines {
            first: need.line,
            second: need.line,
        })
    } else {
        None
    }
}

/// The least line of a batch's need whose signal may come late, twice, if its queue is immediate.
fn ahead_in(order: &Clocked, j: u32) -> Option<Lines>
    requires exists { j < length order.now.jobs }
    ensures { AreLeastOrNone (IsAheadIn order.now j) result }
{
    if !order.is_immediate(j) {
        return None;
    }
    let mut lowest = None;
    for need in order.job(j).needs.as_slice() {
        lowest = lower(lowest, ahead(order, j, need));
    }
    lowest
}

/// The least line of an immediate batch's wait whose signal isn't sure to be pending, or none.
pub(crate) fn first_not_pending(order: &Clocked) -> Option<u32>
    ensures { IsLeastOrNone (IsNotPendingAt order.now) result }
{
    let mut lowest = None;
    for j in 0..order.jobs() {
        lowest = lower(lowest, ahead_in(order, j));
    }
    match lowest {
        Some(lines) => Some(lines.first),
        None => None,
    }
}
