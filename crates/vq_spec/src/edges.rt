//! What each job of a plan waits for: jobs that must be finished, and signals of others.
ghost use Rattle.std.specs.Prelude.{◌≡◌, ◌<◌, ◌++◌, ◌∷◌, [], All, map, length, OnOk, IfOk};
ghost use Rattle.std.specs.Prelude.{option_map};
ghost use Rattle.std.specs.List.{filter_map, range_with_len, slice_get};
ghost use Rattle.std.specs.Option.{option_to_list};
ghost use Rattle.vq_model.specs.Lowering.{plan_of};
ghost use Rattle.vq_model.specs.Plan.{job_of};
ghost use Rattle.vq_model.specs.SameScript.{IsRead};
ghost use Rattle.vq_spec.specs.ChainParts.{AreChains, AreParts};
ghost use Rattle.vq_spec.specs.Jobs.{awaited_by, finished_before, resolving};
ghost use Rattle.vq_spec.specs.Waits.{AreWaits};

use crate::chains::Chain;
use std::alloc::{AllocError, Global};
use vq_lists::Rows;
use vq_model::plan::{Need, Op, PlanJob};
use vq_model::script::Script;

/// What each job waits for, job by job.
#[derive(Drop)]
pub(crate) struct Waits {
    /// The signal operations that it waits for: those that resolve its needs.
    pub(crate) awaited: Rows,
    /// The jobs with an edge to it: those that must be finished, and then those of the operations.
    pub(crate) edges: Rows,
}

/// What one job waits for, until it stands with the others.
#[derive(Drop)]
pub(crate) struct JobWaits {
    pub(crate) awaited: Vec<u32>,
    pub(crate) edges: Vec<u32>,
}

/// Adds a number, if there is one.
pub(crate) fn push_some(numbers: &mut Vec<u32>, number: Option<u32>) -> Result<(), AllocError>
    ensures { OnOk result (numbers.new.items ≡ numbers.old.items ++ option_to_list number) }
{
    if let Some(number) = number {
        numbers.push(number)?;
    }
    Ok(())
}

/// Puts the jobs that must be finished before a job starts in the place of others.
fn finished_before(jobs: &mut Vec<u32>, job: &PlanJob) -> Result<(), AllocError>
    ensures { OnOk result (jobs.new.items ≡ finished_before job.now) }
{
    jobs.clear();
    push_some(jobs, job.previous)?;
    push_some(jobs, job.host_before)?;
    jobs.extend_from_slice(job.idle_after.as_slice())
}

/// Adds the operation that resolves a need. A need that the initial value meets waits for none.
fn push_resolving(
    ops: &mut Vec<u32>,
    script: &Script,
    chains: &[Chain],
    need: &Need,
) -> Result<(), AllocError>
    requires read { IsRead script.now }
    requires chains { AreChains script.now chains.now }
    requires exists { need.now.chain < length script.now.semaphores }
    ensures { OnOk result (ops.new.items
        ≡ ops.old.items ++ resolving (plan_of script.now) (need.now ∷ [])) }
{
    let chain = need.chain as usize;
    if script.semaphores.as_slice()[chain].kind.initial_value() < need.value {
        push_some(ops, chains[chain].resolver(need.value))?;
    }
    Ok(())
}

/// Puts the signal operations that a job waits for in the place of others.
fn awaited(
    ops: &mut Vec<u32>,
    script: &Script,
    chains: &[Chain],
    job: &PlanJob,
) -> Result<(), AllocError>
    requires read { IsRead script.now }
    requires chains { AreChains script.now chains.now }
    requires exist { All (λ n. n.chain < length script.now.semaphores) job.now.needs }
    ensures { OnOk result (ops.new.items ≡ awaited_by (plan_of script.now) job.now) }
{
    ops.clear();
    if job.any {
        return Ok(());
    }
    for need in job.needs.as_slice() {
        push_resolving(ops, script, chains, need)?;
    }
    Ok(())
}

/// The job of an operation.
fn job_of(ops: &[Op], op: u32) -> Option<u32>
    ensures { result ≡ option_map (λ o. o.job) (slice_get ops.now op) }
{
    Some(ops.get(op as usize)?.job)
}

/// Adds the jobs of operations.
fn push_jobs_of(jobs: &mut Vec<u32>, ops: &[Op], awaited: &[u32]) -> Result<(), AllocError>
    ensures { OnOk result (jobs.new.items ≡ jobs.old.items
        ++ filter_map (λ e. option_map (λ o. o.job) (slice_get ops.now e)) awaited.now) }
{
    for op in awaited {
        push_some(jobs, job_of(ops, *op))?;
    }
    Ok(())
}

impl JobWaits {
    /// Nothing is waited for. It takes no memory.
    fn new(alloc: Global) -> JobWaits {
        JobWaits {
            awaited: Vec::new(alloc),
            edges: Vec::new(alloc),
        }
    }

    /// Puts what a job waits for in the place of what stood there.
    fn take(
        &mut self,
        script: &Script,
        ops: &[Op],
        chains: &[Chain],
        job: &PlanJob,
    ) -> Result<(), AllocError>
        requires parts { AreParts script.now ops.now chains.now }
        requires exist { All (λ n. n.chain < length script.now.semaphores) job.now.needs }
        ensures awaited { OnOk result (self.new.awaited.items ≡ awaited_by (plan_of script.now) job.now) }
        ensures edges { OnOk result (self.new.edges.items ≡ finished_before job.now
            ++ filter_map (job_of (plan_of script.now)) (awaited_by (plan_of script.now) job.now)) }
    {
        awaited(&mut self.awaited, script, chains, job)?;
        finished_before(&mut self.edges, job)?;
        push_jobs_of(&mut self.edges, ops, self.awaited.as_slice())
    }
}

impl Waits {
    /// What no job waits for, with room for so many jobs and needs.
    fn new(alloc: Global, jobs: usize, needs: usize) -> Result<Waits, AllocError>
        ensures awaited { IfOk result (λ waits. waits.awaited ≡ []) }
        ensures edges { IfOk result (λ waits. waits.edges ≡ []) }
    {
        Ok(Waits {
            awaited: Rows::with_room(alloc, jobs, needs)?,
            edges: Rows::with_room(alloc, jobs, needs.saturating_add(jobs.saturating_mul(2)))?,
        })
    }

    /// Adds what the next job waits for.
    fn push(&mut self, own: &JobWaits) -> Result<(), AllocError>
        ensures awaited { OnOk result (self.new.awaited ≡ self.old.awaited ++ own.now.awaited.items ∷ []) }
        ensures edges { OnOk result (self.new.edges ≡ self.old.edges ++ own.now.edges.items ∷ []) }
    {
        self.awaited.push(own.awaited.as_slice())?;
        self.edges.push(own.edges.as_slice())
    }
}

/// How many needs the jobs have.
fn count_needs(jobs: &[PlanJob]) -> usize {
    let mut count: usize = 0;
    for job in jobs {
        count = count.saturating_add(job.needs.len());
    }
    count
}

/// What each job waits for.
pub(crate) fn lower_waits(
    alloc: Global,
    script: &Script,
    ops: &[Op],
    chains: &[Chain],
    jobs: &[PlanJob],
) -> Result<Waits, AllocError>
    requires parts { AreParts script.now ops.now chains.now }
    requires jobs { jobs.now ≡ (plan_of script.now).jobs }
    ensures { IfOk result (λ waits. AreWaits (plan_of script.now) (length jobs.now) waits) }
{
    let mut waits = Waits::new(alloc, jobs.len(), count_needs(jobs))?;
    let mut own = JobWaits::new(alloc);
    for job in jobs {
        own.take(script, ops, chains, job)?;
        waits.push(&own)?;
    }
    Ok(waits)
}
