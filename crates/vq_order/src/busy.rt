//! Resets of fences that may still be in use.
ghost use Rattle.std.specs.Prelude.{◌≡◌, ◌<◌, ◌+◌, ◌↔◌, IsTrue, IfOk, length};
ghost use Rattle.vq_model.specs.Checks.{IsFenceBusyAt};
ghost use Rattle.vq_model.specs.LoweredPlans.{IsPlan};
ghost use Rattle.vq_model.specs.SameScript.{IsRead};
ghost use Rattle.vq_order.specs.Busy.{AreLastNamings, IsBusyOrNone, IsInUse, named_by, reset_by};
ghost use Rattle.vq_order.specs.Unreached.{IsLeastOrNone};

use std::alloc::{AllocError, Global};
use vq_clocks::Clocked;
use vq_model::script::{HostStep, Job, Script};

/// The fence that a batch names.
fn named_by(job: &Job) -> Option<u32>
    ensures { result ≡ named_by job.now }
{
    match job {
        Job::Batch(batch) => Some(batch.fence?.semaphore),
        Job::Host(_) => None,
    }
}

/// The fence that a host step resets.
fn reset_by(job: &Job) -> Option<u32>
    ensures { result ≡ reset_by job.now }
{
    match job {
        Job::Host(host) => match &host.step {
            HostStep::FenceReset(fence) => Some(*fence),
            _ => None,
        },
        Job::Batch(_) => None,
    }
}

/// Notes which fence a job names, or that it resets one.
fn note_use(named: &mut [Option<u32>], script: &Script, j: u32)
    requires read { IsRead script.now }
    requires exists { j < length script.now.jobs }
    requires kept { AreLastNamings script.now j named.old }
    ensures { AreLastNamings script.now (j + 1) named.new }
{
    let job = &script.jobs.as_slice()[j as usize];
    if let Some(fence) = named_by(job) {
        named[fence as usize] = Some(j);
    } else if let Some(fence) = reset_by(job) {
        named[fence as usize] = None;
    }
}

/// Whether the signal of a fence by the batch that names it isn't sure for another job.
fn is_in_use(order: &Clocked, fence: u32, naming: u32, j: u32) -> bool
    requires naming { naming < length order.now.jobs }
    requires exists { j < length order.now.jobs }
    ensures { IsTrue result ↔ IsInUse order.now fence naming j }
{
    for op in order.plan().signals_of(naming) {
        if order.op(*op).chain == fence && !order.is_sure(*op, j) {
            return true;
        }
    }
    false
}

/// The line of a job that resets a fence that may be in use, where the fences' last namings are these.
fn busy_at(order: &Clocked, named: &[Option<u32>], j: u32) -> Option<u32>
    requires exists { j < length order.now.jobs }
    requires named { AreLastNamings order.now.script j named.now }
    ensures { IsBusyOrNone order.now j result }
{
    let job = &order.plan().script().jobs.as_slice()[j as usize];
    let fence = reset_by(job)?;
    let naming = named[fence as usize]?;
    if is_in_use(order, fence, naming, j) {
        Some(order.job(j).line)
    } else {
        None
    }
}

/// The least line of a reset of a fence that may be in use: its last naming isn't sure to be signaled.
/// The error is want of memory.
pub(crate) fn first_busy(alloc: Global, order: &Clocked) -> Result<Option<u32>, AllocError>
    ensures { IfOk result (IsLeastOrNone (IsFenceBusyAt order.now)) }
{
    let script = order.plan().script();
    let mut named = vec![in alloc; None; script.semaphores.as_slice().len()]?;
    for j in 0..order.jobs() {
        let busy = busy_at(order, named.as_slice(), j);
        if busy.is_some() {
            return Ok(busy);
        }
        note_use(named.as_mut_slice(), script, j);
    }
    Ok(None)
}
