//! The signal operations of a script, with their values.
ghost use Rattle.std.specs.Prelude.{◌≡◌, ◌<◌, ◌+◌, map, length, Some, IfOk, OnOk};
ghost use Rattle.std.specs.List.{slice_get, range_with_len};
ghost use Rattle.vq_model.specs.SameScript.{IsRead};
ghost use Rattle.vq_model.specs.Signals.{all_signals, of_mark};
ghost use Rattle.vq_spec.specs.Counts.{AreSignals, signals_before, value_by};
ghost use Rattle.vq_model.specs.declared.script.Job.TheVariants.{Host, Batch as BatchJob};

use std::alloc::{AllocError, Global};
use vq_model::list::List;
use vq_model::plan::Op;
use vq_model::script::{Batch, HostLine, HostStep, Mark, Script};

/// The signal operations so far, their places in their chains still 0, and how many of them each
/// semaphore has.
#[derive(Drop)]
pub(crate) struct Signals {
    pub(crate) ops: Vec<Op>,
    pub(crate) counts: Vec<u64>,
}

/// So many zeros.
fn zeros(alloc: Global, count: usize) -> Result<Vec<u64>, AllocError>
    ensures { IfOk result (λ zeros. zeros.items ≡ map (λ _. 0) (range_with_len 0 count)) }
{
    let mut zeros = Vec::with_capacity(alloc, count)?;
    for _ in 0..count {
        zeros.push(0)?;
    }
    Ok(zeros)
}

/// The value of a mark: the one that is written for a timeline, else this count.
pub(crate) fn value_of(script: &Script, mark: &Mark, count: u64) -> u64
    requires { mark.now.semaphore < length script.now.semaphores }
    ensures { result ≡ value_by script.now mark.now count }
{
    let semaphore = &script.semaphores.as_slice()[mark.semaphore as usize];
    if semaphore.kind.is_timeline() {
        mark.value
    } else {
        count
    }
}

impl Signals {
    /// No signals yet.
    pub(crate) fn new(alloc: Global, script: &Script) -> Result<Signals, AllocError>
        ensures kept { IfOk result (λ signals. AreSignals script.now signals) }
        ensures none { IfOk result (λ signals. length signals.ops.items ≡ 0) }
    {
        Ok(Signals {
            // most jobs make one
            ops: Vec::with_capacity(alloc, script.jobs.as_slice().len())?,
            counts: zeros(alloc, script.semaphores.as_slice().len())?,
        })
    }

    /// Adds a job's next signal. The value of a timeline's signal is written; the k-th signal of a
    /// binary semaphore or a fence has the value k.
    fn push(&mut self, script: &Script, job: u32, mark: &Mark) -> Result<(), AllocError>
        requires read { IsRead script.now }
        requires kept { AreSignals script.now self.old }
        requires next { slice_get (all_signals script.now) (length self.old.ops.items)
            ≡ Some (of_mark job mark.now) }
        ensures kept { OnOk result (AreSignals script.now self.new) }
        ensures more { OnOk result (length self.new.ops.items ≡ length self.old.ops.items + 1) }
    {
        let semaphore = mark.semaphore as usize;
        let count = self.counts[semaphore] + 1;
        self.ops.push(Op {
            chain: mark.semaphore,
            index: 0,
            value: value_of(script, mark, count),
            job,
            line: mark.line,
        })?;
        self.counts[semaphore] = count;
        Ok(())
    }

    /// Adds the signals of a batch, and its fence as the last of them.
    pub(crate) fn push_batch(
        &mut self,
        script: &Script,
        job: u32,
        batch: &Batch,
    ) -> Result<(), AllocError>
        requires read { IsRead script.now }
        requires at { slice_get script.now.jobs job ≡ Some (BatchJob batch.now) }
        requires kept { AreSignals script.now self.old }
        requires first { length self.old.ops.items ≡ length (signals_before script.now job) }
        ensures kept { OnOk result (AreSignals script.now self.new) }
        ensures more { OnOk result (length self.new.ops.items
            ≡ length (signals_before script.now (job + 1))) }
    {
        for signal in batch.signals.as_slice() {
            self.push(script, job, signal)?;
        }
        match &batch.fence {
            Some(fence) => self.push(script, job, fence),
            None => Ok(()),
        }
    }

    /// Adds the signal of a host step, if it makes one.
    pub(crate) fn push_step(
        &mut self,
        script: &Script,
        job: u32,
        host: &HostLine,
    ) -> Result<(), AllocError>
        requires read { IsRead script.now }
        requires at { slice_get script.now.jobs job ≡ Some (Host host.now) }
        requires kept { AreSignals script.now self.old }
        requires first { length self.old.ops.items ≡ length (signals_before script.now job) }
        ensures kept { OnOk result (AreSignals script.now self.new) }
        ensures more { OnOk result (length self.new.ops.items
            ≡ length (signals_before script.now (job + 1))) }
    {
        let HostStep::Signal(pair) = &host.step else {
            return Ok(());
        };
        let mark = Mark {
            line: host.line,
            semaphore: pair.semaphore,
            value: pair.value,
            from: 1,
        };
        self.push(script, job, &mark)
    }
}
