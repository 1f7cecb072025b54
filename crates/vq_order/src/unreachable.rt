//! The least line of a wait that the slow run leaves unreached.
ghost use Rattle.std.specs.Prelude.{◌≡◌, ◌<◌, length};
ghost use Rattle.vq_model.specs.Checks.{is_unreached, IsUnreachableAt};
ghost use Rattle.vq_order.specs.LeastLines.{AreLeastOrNone};
ghost use Rattle.vq_order.specs.Unreached.{HasRun, IsLeastOrNone, IsUnreached, IsUnreachedIn};

use crate::lines::{Lines, lower};
use vq_model::plan::Need;
use vq_spec::{Plan, SlowOrder, any_reached, is_reached};

/// Whether a need of a job is unreached after the slow run; of a wait for any the whole step.
fn is_unreached(plan: &Plan, run: &SlowOrder, j: u32, need: Need) -> bool
    requires run { HasRun plan.now run.now }
    requires exists { j < length plan.now.jobs }
    requires chain { need.chain < length plan.now.script.semaphores }
    ensures { result ≡ is_unreached plan.now j need }
{
    let job = plan.job(j);
    let payloads = run.payloads.as_slice();
    if job.any {
        !any_reached(payloads, job.needs.as_slice())
    } else {
        !is_reached(payloads, need)
    }
}

/// The line of a need of a job, twice, if it is unreached.
fn unreached(plan: &Plan, run: &SlowOrder, j: u32, need: Need) -> Option<Lines>
    requires run { HasRun plan.now run.now }
    requires exists { j < length plan.now.jobs }
    requires chain { need.chain < length plan.now.script.semaphores }
    ensures { AreLeastOrNone (IsUnreached plan.now j need) result }
{
    if is_unreached(plan, run, j, need) {
        Some(Lines {
            first: need.line,
            second: need.line,
        })
    } else {
        None
    }
}

/// The least line of an unreached need of a job, twice.
fn unreached_in(plan: &Plan, run: &SlowOrder, j: u32) -> Option<Lines>
    requires run { HasRun plan.now run.now }
    requires exists { j < length plan.now.jobs }
    ensures { AreLeastOrNone (IsUnreachedIn plan.now j) result }
{
    let mut lowest = None;
    for need in plan.job(j).needs.as_slice() {
        lowest = lower(lowest, unreached(plan, run, j, *need));
    }
    lowest
}

/// The least line of an unreached need in a job that the slow run leaves.
pub(crate) fn least_unreached(plan: &Plan, run: &SlowOrder) -> Option<u32>
    requires { HasRun plan.now run.now }
    ensures { IsLeastOrNone (IsUnreachableAt plan.now) result }
{
    let mut lowest = None;
    for j in run.stuck.as_slice() {
        lowest = lower(lowest, unreached_in(plan, run, *j));
    }
    match lowest {
        Some(lines) => Some(lines.first),
        None => None,
    }
}
