//! Checking a plan.
ghost use Rattle.vq_model.specs.OrderAnswers.{Checks};
ghost use Rattle.vq_order.specs.Checked.{KeepsPlanOr};

use crate::busy::first_busy;
use crate::lines::Lines;
use crate::ordered::Ordered;
use crate::pending::first_not_pending;
use crate::races::first_race;
use crate::unordered::first_unordered;
use crate::unreachable::least_unreached;
use std::alloc::Global;
use vq_clocks::Clocked;
use vq_model::plan::OrderFault;
use vq_spec::{Plan, slow_order};

/// A plan with the order of its jobs, or its first unreachable wait.
fn clocked(alloc: Global, plan: Plan) -> Result<Clocked, OrderFault>
    ensures { KeepsPlanOr plan result }
{
    let run = slow_order(alloc, &plan)?;
    if let Some(line) = least_unreached(&plan, &run) {
        return Err(OrderFault::Unreachable { line });
    }
    let order = Clocked::new(alloc, plan, run.order)?;
    Ok(order)
}

/// Checks a plan, and keeps it with the order of its jobs where it is lawful.
///
/// The errors come in this order, each with the least line, or with the least pair of lines by the
/// second and then by the first: `Unreachable`, where the slow run leaves a job, with a wait that is
/// then unreached; `Unordered`, where signals of one semaphore stand in no sure order; `FenceBusy`,
/// where a fence is reset whose last naming isn't sure to be signaled; `NotPending`, where a batch of
/// an immediate queue waits for a signal that is neither of a host step or an immediate batch written
/// before it, nor sure for such a host step; `Race`, where commands of two jobs conflict and neither
/// happens before the other. `Memory` is want of memory.
///
/// Source: Vulkan 1.3, "Semaphore Signaling", "Semaphore Waiting", vkResetFences, "Execution and
/// Memory Dependencies". That the slow run decides what can be reached, and that an immediate queue
/// can't hold back a batch, are this project's rules.
pub fn check(alloc: Global, plan: Plan) -> Result<Ordered, OrderFault>
    ensures { Checks plan result }
{
    let order = clocked(alloc, plan)?;
    if let Some(Lines { first, second }) = first_unordered(&order) {
        return Err(OrderFault::Unordered { first, second });
    }
    if let Some(line) = first_busy(alloc, &order)? {
        return Err(OrderFault::FenceBusy { line });
    }
    if let Some(line) = first_not_pending(&order) {
        return Err(OrderFault::NotPending { line });
    }
    if let Some(Lines { first, second }) = first_race(alloc, &order)? {
        return Err(OrderFault::Race { first, second });
    }
    Ok(Ordered::of(order))
}
