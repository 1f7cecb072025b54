//! The plan of a script.
//!
//! Source: this project's own, where an item names no other.
ghost use Rattle.std.specs.Prelude.{◌≡◌, ◌<◌, ◌↔◌, ℕ, length, Some, IsNone, true};
ghost use Rattle.std.specs.List.{slice_get};
ghost use Rattle.vq_model.specs.Checks.{is_immediate_batch};
ghost use Rattle.vq_model.specs.Edges.{AtEnd, awaited_at, must_finish};
ghost use Rattle.vq_model.specs.EdgeReasons.{edges_to};
ghost use Rattle.vq_model.specs.LoweredPlans.{IsPlan, Lowers};
ghost use Rattle.vq_model.specs.Plan.{chain, chain_of, commands_of, initial, resolver, signals_of, value};
ghost use Rattle.vq_ground.specs.Lists.{has};
ghost use Rattle.vq_model.specs.SameScript.{IsRead};

use crate::lowering::Tables;
use crate::numbers::part;
use crate::uses::find_fault;
use std::alloc::Global;
use std::marker::Model;
use vq_model::list::List;
use vq_model::plan::{Lane, Op, PlanFault, PlanJob};
use vq_model::script::{CommandLine, Job, Script};

/// A script's jobs in lanes, with what each waits for, its commands and its signals.
pub struct Plan {
    script: Script,
    tables: Tables,
}

impl Drop for Plan {
    fn drop(self) {
        let Plan {
            script: _script,
            tables: _tables,
        } = self;
    }
}

impl Model for Plan {
    ghost use Rattle.vq_model.specs.Plan.{Plan};

    ghost Value = { Plan };

    ghost use Rattle.vq_model.specs.Lowering.{plan_of};
    ghost use Rattle.vq_spec.specs.PlanTables.{KeepsPlan};

    ghost view = { λ a. plan_of a.script };

    ghost invariant = { λ a. KeepsPlan a.script a.tables };
}

impl Plan {
    /// The plan of a script. The error is the first fault by its line: a wait of a binary semaphore
    /// without an earlier signal that no earlier wait took, a signal of one whose signal no wait
    /// took, a fence that was named and not reset since; or it is want of memory.
    ///
    /// Source: Vulkan 1.3, "Queue Submission", "Semaphores", "Fences". That the batches of a queue
    /// run one after another is this project's rule.
    pub fn lower(alloc: Global, script: Script) -> Result<Plan, PlanFault>
        requires { IsRead script }
        ensures { Lowers script result }
    {
        find_fault(alloc, &script)?;
        let tables = Tables::of(alloc, &script)?;
        Ok(Plan { script, tables })
    }

    /// The script that was lowered. The plan is the one of this script.
    pub fn script(&self) -> &Script
        ensures script { result.now ≡ self.now.script }
        ensures plan { IsPlan self.now }
    {
        &self.script
    }

    /// How many jobs there are.
    pub fn jobs(&self) -> u32
        ensures { result ≡ length self.now.jobs }
    {
        self.tables.jobs.len() as u32
    }

    /// A job; jobs are numbered from 0 in the order of the script.
    ///
    /// Source: Vulkan 1.3, "Queue Submission".
    pub fn job(&self, j: u32) -> &PlanJob
        requires { j < length self.now.jobs }
        ensures { slice_get self.now.jobs j ≡ Some result.now }
    {
        &self.tables.jobs[j as usize]
    }

    /// The commands of a job, in order.
    #[inline(always)]
    pub fn commands_of(&self, j: u32) -> &[u32]
        requires { j < length self.now.jobs }
        ensures { result.now ≡ commands_of self.now j }
    {
        part(self.tables.numbers.as_slice(), &self.job(j).commands)
    }

    /// The signal operations of a job, in the order of the lines, the fence last.
    ///
    /// Source: Vulkan 1.3, "Semaphore Signaling".
    #[inline(always)]
    pub fn signals_of(&self, j: u32) -> &[u32]
        requires { j < length self.now.jobs }
        ensures { result.now ≡ signals_of self.now j }
    {
        part(self.tables.numbers.as_slice(), &self.job(j).signals)
    }

    /// Whether a job is a batch of an immediate queue, which the host moves as soon as it has submitted it.
    pub fn is_immediate(&self, j: u32) -> bool
        requires { j < length self.now.jobs }
        ensures { result ≡ is_immediate_batch self.now j }
    {
        match self.job(j).lane {
            Lane::Host => false,
            Lane::Queue(queue) => self.script().is_immediate(queue),
        }
    }

    /// How many signal operations there are.
    ///
    /// Source: Vulkan 1.3, "Semaphore Signaling".
    pub fn ops(&self) -> u32
        ensures { result ≡ length self.now.ops }
    {
        self.tables.ops.len() as u32
    }

    /// A signal operation; operations are numbered from 0 in the order of the script.
    ///
    /// Source: Vulkan 1.3, "Semaphore Signaling".
    pub fn op(&self, e: u32) -> Op
        requires { e < length self.now.ops }
        ensures { slice_get self.now.ops e ≡ Some result }
    {
        self.tables.ops[e as usize]
    }

    /// How many chains there are: one for each semaphore and each fence.
    pub fn chains(&self) -> u32
        ensures { result ≡ length self.now.chains }
    {
        self.tables.chains.len() as u32
    }

    /// The payload of a chain before its first signal. Chains are numbered as the script's
    /// semaphores and fences are.
    ///
    /// Source: Vulkan 1.3, VkSemaphoreTypeCreateInfo. That binary semaphores and fences begin with
    /// 0 is this project's rule.
    pub fn initial(&self, t: u32) -> u64
        requires { t < length self.now.chains }
        ensures { result ≡ initial self.now t }
    {
        self.script.semaphores.as_slice()[t as usize]
            .kind
            .initial_value()
    }

    /// The signal operations of a chain, by value and then by line.
    ///
    /// Source: Vulkan 1.3, "Semaphore Signaling".
    pub fn chain(&self, t: u32) -> &[u32]
        requires { t < length self.now.chains }
        ensures { result.now ≡ chain self.now t }
    {
        self.tables.chains[t as usize].ops.as_slice()
    }

    /// What resolves a wait for a value of a chain: its first signal operation with that value or a
    /// greater one, if there is one.
    ///
    /// Source: Vulkan 1.3, "Semaphore Waiting".
    pub fn resolver(&self, t: u32, v: u64) -> Option<u32>
        requires { t < length self.now.chains }
        ensures value { result ≡ resolver self.now t v }
        ensures none { IsNone result
            ↔ ((e : ℕ) → chain_of self.now e ≡ Some t → value self.now e < v) }
    {
        self.tables.chains[t as usize].resolver(v)
    }

    /// How many commands there are in all batches.
    pub fn commands(&self) -> u32
        ensures { result ≡ length self.now.commands }
    {
        self.tables.owners.len() as u32
    }

    /// The job of a command.
    ///
    /// Source: Vulkan 1.3, "Queue Submission".
    #[inline(always)]
    pub fn owner(&self, c: u32) -> u32
        requires { c < length self.now.commands }
        ensures { has (commands_of self.now result) c ≡ true }
    {
        self.tables.owners[c as usize]
    }

    /// A command; commands are numbered from 0 through all batches.
    pub fn command(&self, c: u32) -> &CommandLine
        requires { c < length self.now.commands }
        ensures { slice_get self.now.commands c ≡ Some result.now }
    {
        let jobs = self.script.jobs.as_slice();
        let job = self.owner(c);
        let place = c - self.job(job).commands.first();
        match &jobs[job as usize] {
            Job::Batch(batch) => &batch.commands.as_slice()[place as usize],
            Job::Host(_) => unreachable!(),
        }
    }

    /// The jobs that must be finished before a job starts: the one before it in its lane, for a batch
    /// the last host step before it, and those that an idle step waits for.
    ///
    /// Source: Vulkan 1.3, "Queue Submission". That a queue's batches run one after another is this
    /// project's rule.
    pub fn must_finish(&self, j: u32) -> &[u32]
        requires { j < length self.now.jobs }
        ensures { result.now ≡ must_finish self.now j }
    {
        // one edge for each operation that the job waits for stands behind them
        let _script = self.script();
        let edges = self.edges(j);
        &edges[..edges.len() - self.awaited(j).len()]
    }

    /// The signal operations that a job waits for: those that resolve its needs above the initial
    /// values, in the order of its needs; none where it waits for any of several.
    ///
    /// Source: Vulkan 1.3, "Semaphore Waiting".
    pub fn awaited(&self, j: u32) -> &[u32]
        requires { j < length self.now.jobs }
        ensures { result.now ≡ awaited_at self.now j AtEnd }
    {
        self.tables.waits.awaited.row(j as usize)
    }

    /// The jobs with an edge to a job: those that must be finished before it starts, and those
    /// whose signals it waits for.
    ///
    /// Source: Vulkan 1.3, "Semaphore Waiting" and "Queue Submission".
    pub fn edges(&self, j: u32) -> &[u32]
        requires { j < length self.now.jobs }
        ensures { result.now ≡ edges_to self.now j }
    {
        self.tables.waits.edges.row(j as usize)
    }
}
