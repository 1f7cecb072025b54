//! What a plan keeps beside its script.
ghost use Rattle.std.specs.Prelude.{◌≡◌, ◌<◌, ◌+◌, ◌^◌, [], None, All, map, take, length, Some, IfOk};
ghost use Rattle.std.specs.Prelude.{OnOk};
ghost use Rattle.std.specs.List.{flat_map, range_with_len, slice_get};
ghost use Rattle.vq_model.specs.Lowering.{batch_commands, plan_of};
ghost use Rattle.vq_model.specs.LoweringFaults.{lowering_fault};
ghost use Rattle.vq_model.specs.SameScript.{IsRead};
ghost use Rattle.vq_model.specs.declared.script.Job.TheVariants.{Host, Batch as BatchJob};
ghost use Rattle.vq_spec.specs.Counts.{AreLowered, batch_job, need_by};

use crate::chains::{Chain, lower_chains, place_ops};
use crate::edges::{Waits, lower_waits};
use crate::fences::{FenceState, no_fences, take_batch, take_step};
use crate::host_steps::{push_signals, step_job};
use crate::numbers::first_numbers;
use crate::owners::lower_owners;
use crate::signals::{Signals, value_of};
use std::alloc::{AllocError, Global};
use vq_model::indices::Indices;
use vq_model::list::List;
use vq_model::plan::{Lane, Need, Op, PlanJob, Question};
use vq_model::script::{Batch, HostLine, Job, Mark, Script};

/// What a plan keeps beside its script.
pub(crate) struct Tables {
    pub(crate) jobs: Vec<PlanJob>,
    /// What each job waits for.
    pub(crate) waits: Waits,
    /// The job of each command.
    pub(crate) owners: Vec<u32>,
    /// The numbers from 0 on, of which a job's commands and signals are a part.
    pub(crate) numbers: Vec<u32>,
    pub(crate) ops: Vec<Op>,
    /// The operations of each semaphore and each fence.
    pub(crate) chains: Vec<Chain>,
}

impl Drop for Tables {
    fn drop(self) {
        let Tables {
            jobs: _jobs,
            waits: _waits,
            owners: _owners,
            numbers: _numbers,
            ops: _ops,
            chains: _chains,
        } = self;
    }
}

/// The parts of a plan so far, job by job.
#[derive(Drop)]
pub(crate) struct Lowered {
    pub(crate) jobs: Vec<PlanJob>,
    /// How many commands the jobs have.
    pub(crate) commands: u32,
    /// The last job of each queue.
    pub(crate) last: Vec<Option<u32>>,
    /// The last host step.
    pub(crate) host: Option<u32>,
    /// What the jobs say of each fence.
    pub(crate) fences: Vec<FenceState>,
    pub(crate) signals: Signals,
}

/// A list of nothing.
fn none<T>(alloc: Global) -> List<T>
    ensures { result ≡ [] }
{
    List::of(Vec::new(alloc))
}

/// What a wait asks for. That of a binary semaphore takes the last signal that is written before
/// its batch, so its value is how many there are.
fn lower_wait(script: &Script, counts: &[u64], wait: &Mark) -> Need
    requires exists { wait.now.semaphore < length script.now.semaphores }
    requires counted { length counts.now ≡ length script.now.semaphores }
    ensures { result ≡ need_by script.now counts.now wait.now }
{
    Need {
        line: wait.line,
        chain: wait.semaphore,
        value: value_of(script, wait, counts[wait.semaphore as usize]),
        from: wait.from,
    }
}

/// What the waits of a batch ask for, where each semaphore has so many signals before it.
fn lower_needs(
    alloc: Global,
    script: &Script,
    counts: &[u64],
    waits: &[Mark],
) -> Result<List<Need>, AllocError>
    requires exist { All (λ m. m.semaphore < length script.now.semaphores) waits.now }
    requires counted { length counts.now ≡ length script.now.semaphores }
    ensures { IfOk result (λ needs. needs ≡ map (need_by script.now counts.now) waits.now) }
{
    let mut needs = Vec::with_capacity(alloc, waits.len())?;
    for wait in waits {
        needs.push(lower_wait(script, counts, wait))?;
    }
    Ok(List::of(needs))
}

/// The job that a batch is lowered to.
fn batch_job(
    alloc: Global,
    batch: &Batch,
    previous: Option<u32>,
    host_before: Option<u32>,
    needs: List<Need>,
    commands: Indices,
    signals: Indices,
) -> PlanJob
    ensures { result ≡ batch_job batch.now previous host_before needs commands signals }
{
    PlanJob {
        line: batch.line,
        lane: Lane::Queue(batch.queue),
        previous,
        host_before,
        any: false,
        needs,
        asked: none(alloc),
        idle_after: none(alloc),
        commands,
        signals,
        question: Question::Silent,
    }
}

/// No last job yet in so many queues.
fn no_jobs(alloc: Global, queues: usize) -> Result<Vec<Option<u32>>, AllocError>
    ensures { IfOk result (λ last. last.items ≡ map (λ q. None) (range_with_len 0 queues)) }
{
    let mut last = Vec::with_capacity(alloc, queues)?;
    for _ in 0..queues {
        last.push(None)?;
    }
    Ok(last)
}

impl Lowered {
    /// No jobs yet.
    fn new(alloc: Global, script: &Script) -> Result<Lowered, AllocError>
        ensures { IfOk result (λ lowered. AreLowered script.now 0 lowered) }
    {
        let queues = script.queues.as_slice().len();
        Ok(Lowered {
            jobs: Vec::with_capacity(alloc, script.jobs.len())?,
            commands: 0,
            last: no_jobs(alloc, queues)?,
            host: None,
            fences: no_fences(alloc, script.semaphores.as_slice().len())?,
            signals: Signals::new(alloc, script)?,
        })
    }

    /// Adds the job of a batch.
    fn push_batch(
        &mut self,
        alloc: Global,
        script: &Script,
        j: u32,
        batch: &Batch,
    ) -> Result<(), AllocError>
        requires read { IsRead script.now }
        requires at { slice_get script.now.jobs j ≡ Some (BatchJob batch.now) }
        requires kept { AreLowered script.now j self.old }
        ensures { OnOk result (AreLowered script.now (j + 1) self.new) }
    {
        let counts = self.signals.counts.as_slice();
        let needs = lower_needs(alloc, script, counts, batch.waits.as_slice())?;
        let first = self.signals.ops.len() as u32;
        self.signals.push_batch(script, j, batch)?;
        let signals = Indices::from(first, self.signals.ops.len() as u32 - first);
        let count = batch.commands.as_slice().len() as u32;
        let commands = Indices::from(self.commands, count);
        let queue = batch.queue as usize;
        let previous = self.last[queue];
        let job = batch_job(alloc, batch, previous, self.host, needs, commands, signals);
        self.jobs.push(job)?;
        self.last[queue] = Some(j);
        self.commands += count;
        take_batch(&mut self.fences, batch);
        Ok(())
    }

    /// Adds the job of a host step.
    fn push_step(
        &mut self,
        alloc: Global,
        script: &Script,
        j: u32,
        host: &HostLine,
    ) -> Result<(), AllocError>
        requires read { IsRead script.now }
        requires at { slice_get script.now.jobs j ≡ Some (Host host.now) }
        requires kept { AreLowered script.now j self.old }
        ensures { OnOk result (AreLowered script.now (j + 1) self.new) }
    {
        let signals = push_signals(&mut self.signals, script, j, host)?;
        let states = self.fences.as_slice();
        let job = step_job(
            alloc,
            states,
            self.last.as_slice(),
            self.host,
            host,
            signals,
        )?;
        self.jobs.push(job)?;
        self.host = Some(j);
        take_step(&mut self.fences, &host.step);
        Ok(())
    }

    /// Adds the next job.
    fn push(&mut self, alloc: Global, script: &Script, j: u32) -> Result<(), AllocError>
        requires read { IsRead script.now }
        requires exists { j < length script.now.jobs }
        requires kept { AreLowered script.now j self.old }
        ensures { OnOk result (AreLowered script.now (j + 1) self.new) }
    {
        match &script.jobs.as_slice()[j as usize] {
            Job::Host(host) => self.push_step(alloc, script, j, host),
            Job::Batch(batch) => self.push_batch(alloc, script, j, batch),
        }
    }
}

/// The jobs of the plan, and its operations.
fn lower_jobs(alloc: Global, script: &Script) -> Result<Lowered, AllocError>
    requires { IsRead script.now }
    ensures { IfOk result (λ lowered. AreLowered script.now (length script.now.jobs) lowered) }
{
    let mut lowered = Lowered::new(alloc, script)?;
    for j in 0..script.jobs.as_slice().len() as u32 {
        lowered.push(alloc, script, j)?;
    }
    Ok(lowered)
}

impl Tables {
    ghost use Rattle.vq_spec.specs.PlanTables.{KeepsPlan};

    /// What is kept of the plan of a script.
    pub(crate) fn of(alloc: Global, script: &Script) -> Result<Tables, AllocError>
        requires read { IsRead script.now }
        requires faultless { lowering_fault script.now ≡ None }
        ensures { IfOk result (λ tables. KeepsPlan script.now tables) }
    {
        let Lowered {
            jobs,
            commands,
            signals,
            ..
        } = lower_jobs(alloc, script)?;
        let Signals { mut ops, counts } = signals;
        let numbers = first_numbers(alloc, commands.max(ops.len() as u32))?;
        let chains = lower_chains(alloc, ops.as_slice(), counts.as_slice())?;
        place_ops(ops.as_mut_slice(), chains.as_slice());
        let waits = lower_waits(
            alloc,
            script,
            ops.as_slice(),
            chains.as_slice(),
            jobs.as_slice(),
        )?;
        Ok(Tables {
            jobs,
            waits,
            owners: lower_owners(alloc, script, commands)?,
            numbers,
            ops,
            chains,
        })
    }
}
