//! The uses of binary semaphores and fences, and the first that is faulty.
ghost use Rattle.std.specs.Prelude.{◌≡◌, ◌<◌, ℕ, All, IfOk, length};
ghost use Rattle.std.specs.Option.{option_map_or};
ghost use Rattle.vq_model.specs.SameScript.{IsRead};
ghost use Rattle.vq_model.specs.declared.script.HostStep.TheVariants.{FenceReset};
ghost use Rattle.vq_model.specs.ValidScripts.{HasValidBatches, IsValidBatch};
ghost use Rattle.vq_spec.specs.Walks.{was_signaled, was_named, fault_after, Walks, walk_counted, walk_mark, walk_marks};
ghost use Rattle.vq_spec.specs.Walks.{walk_batch, walk_step, walk_jobs, FindsFault, never_used};

use std::alloc::{AllocError, Global};
use vq_model::list::List;
use vq_model::plan::PlanFault;
use vq_model::script::{Batch, HostLine, HostStep, Job, Mark, Script};

/// How a job uses a binary semaphore or a fence.
#[derive(Clone, Copy, Debug, PartialEq, Eq)]
pub(crate) enum Usage {
    /// It waits for a signal.
    Waited,
    /// It signals the semaphore.
    Signaled,
    /// It names the fence.
    Named,
    /// It resets the fence.
    Reset,
}

/// Whether the last use was a signal.
fn was_signaled(last: Option<Usage>) -> bool
    ensures { result ≡ was_signaled last }
{
    matches!(last, Some(Usage::Signaled))
}

/// Whether the last use named the fence.
fn was_named(last: Option<Usage>) -> bool
    ensures { result ≡ was_named last }
{
    matches!(last, Some(Usage::Named))
}

/// What is wrong with a use at a line after the last one. As long as none was faulty, signals and
/// waits take turns: a signal is left exactly where the last use was one. A reset is never faulty.
pub(crate) fn fault_after(last: Option<Usage>, usage: Usage, line: u32) -> Option<PlanFault>
    ensures { result ≡ fault_after last usage line }
{
    match usage {
        Usage::Waited if !was_signaled(last) => Some(PlanFault::NoSignal { line }),
        Usage::Signaled if was_signaled(last) => Some(PlanFault::SignaledTwice { line }),
        Usage::Named if was_named(last) => Some(PlanFault::FenceUsed { line }),
        _ => None,
    }
}

/// Takes one use of a binary semaphore or a fence.
fn use_counted(
    last: &mut [Option<Usage>],
    usage: Usage,
    semaphore: u32,
    line: u32,
) -> Result<(), PlanFault>
    requires { semaphore < length last.old }
    ensures { Walks (walk_counted last.old usage semaphore line) result last.new }
{
    let place = semaphore as usize;
    if let Some(fault) = fault_after(last[place], usage, line) {
        return Err(fault);
    }
    last[place] = Some(usage);
    Ok(())
}

/// Takes the use of a mark. A timeline may be used in any way.
fn use_mark(
    script: &Script,
    last: &mut [Option<Usage>],
    usage: Usage,
    mark: &Mark,
) -> Result<(), PlanFault>
    requires exists { mark.now.semaphore < length script.now.semaphores }
    requires kept { length last.old ≡ length script.now.semaphores }
    ensures { Walks (walk_mark script.now last.old usage mark.now) result last.new }
{
    let semaphore = &script.semaphores.as_slice()[mark.semaphore as usize];
    if semaphore.kind.is_timeline() {
        return Ok(());
    }
    use_counted(last, usage, mark.semaphore, mark.line)
}

/// Takes uses of one kind, in order.
fn use_marks(
    script: &Script,
    last: &mut [Option<Usage>],
    usage: Usage,
    marks: &[Mark],
) -> Result<(), PlanFault>
    requires exist { All (λ m. m.semaphore < length script.now.semaphores) marks.now }
    requires kept { length last.old ≡ length script.now.semaphores }
    ensures { Walks (walk_marks script.now last.old usage marks.now) result last.new }
{
    for mark in marks {
        use_mark(script, last, usage, mark)?;
    }
    Ok(())
}

/// Takes the uses of a batch.
fn use_batch(script: &Script, last: &mut [Option<Usage>], batch: &Batch) -> Result<(), PlanFault>
    requires valid { IsValidBatch script.now batch.now }
    requires kept { length last.old ≡ length script.now.semaphores }
    ensures { Walks (walk_batch script.now last.old batch.now) result last.new }
{
    use_marks(script, last, Usage::Waited, batch.waits.as_slice())?;
    use_marks(script, last, Usage::Signaled, batch.signals.as_slice())?;
    match &batch.fence {
        Some(fence) => use_mark(script, last, Usage::Named, fence),
        None => Ok(()),
    }
}

/// Takes the use of a host step: of all steps only a reset is one.
fn use_step(last: &mut [Option<Usage>], host: &HostLine) -> Result<(), PlanFault>
    requires { (f : ℕ) → host.now.step ≡ FenceReset f → f < length last.old }
    ensures { Walks (walk_step last.old host.now.line host.now.step) result last.new }
{
    match &host.step {
        HostStep::FenceReset(fence) => use_counted(last, Usage::Reset, *fence, host.line),
        _ => Ok(()),
    }
}

/// Takes the uses of all jobs.
fn use_jobs(script: &Script, last: &mut [Option<Usage>]) -> Result<(), PlanFault>
    requires read { IsRead script.now }
    requires kept { length last.old ≡ length script.now.semaphores }
    ensures { Walks (walk_jobs script.now last.old script.now.jobs) result last.new }
{
    for job in script.jobs.as_slice() {
        match job {
            Job::Batch(batch) => use_batch(script, last, batch)?,
            Job::Host(host) => use_step(last, host)?,
        }
    }
    Ok(())
}

/// No uses yet of so many semaphores.
fn never_used(alloc: Global, count: usize) -> Result<Vec<Option<Usage>>, AllocError>
    ensures { IfOk result (λ last. last.items ≡ never_used count) }
{
    let mut last = Vec::with_capacity(alloc, count)?;
    for _ in 0..count {
        last.push(None)?;
    }
    Ok(last)
}

/// Looks for the first faulty use of a script's binary semaphores and fences.
pub(crate) fn find_fault(alloc: Global, script: &Script) -> Result<(), PlanFault>
    requires { IsRead script.now }
    ensures { FindsFault script.now result }
{
    let mut last = never_used(alloc, script.semaphores.as_slice().len())?;
    use_jobs(script, last.as_mut_slice())
}
