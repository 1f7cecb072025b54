//! Plans with vector clocks: which job is before which, and before which command, and which signals
//! are sure.
ghost use Rattle.std.specs.Prelude.{◌≡◌, ◌<◌, ◌↔◌, ℕ, IsTrue, Some, length, suc, true, IfOk};
ghost use Rattle.std.specs.List.{slice_get};
ghost use Rattle.vq_model.specs.Checks.{is_immediate_batch};
ghost use Rattle.vq_model.specs.Edges.{At, stage_of};
ghost use Rattle.vq_model.specs.HappensBefore.{HappensBefore, HappensBeforeCommand};
ghost use Rattle.vq_model.specs.Plan.{chain, commands_of, initial};
ghost use Rattle.vq_ground.specs.Lists.{has};
ghost use Rattle.vq_model.specs.Signals.{kind_of};
ghost use Rattle.vq_model.specs.SlowRun.{slow_order};
ghost use Rattle.vq_model.specs.Sure.{IsSure};
ghost use Rattle.vq_clocks.specs.PartClocks.{AreParts};
ghost use Rattle.vq_clocks.specs.VectorClocks.{IsComplete, IsOfSomeJob};

use crate::clocks::parts::{Parts, all_parts, ends_before};
use crate::clocks::rows::at;
use crate::clocks::table::clock_table;
use crate::complete_run::CompleteRun;
use std::alloc::{AllocError, Global};
use std::marker::Model;
use vq_lists::Rows;
use vq_model::list::List;
use vq_model::plan::{Op, PlanJob};
use vq_model::script::SemaphoreKind;
use vq_spec::Plan;

/// A plan of which the slow run leaves no job, with two vector clocks for each job: the one says
/// which jobs are before it, the other which signal operations are sure for it. Where waits hold back
/// only a part of a batch, its first parts have clocks of their own.
pub struct Clocked {
    run: CompleteRun,
    /// The row of a job has both its clocks, one behind the other.
    clocks: Rows,
    parts: Vec<Parts>,
}

impl Drop for Clocked {
    fn drop(self) {
        let Clocked {
            run: _run,
            clocks: _clocks,
            parts: _parts,
        } = self;
    }
}

impl Model for Clocked {
    ghost use Rattle.vq_model.specs.Plan.{Plan as Lowered};
    ghost use Rattle.vq_clocks.specs.KeptClocks.{KeepsClocks};

    ghost Value = { Lowered };

    ghost view = { λ a. a.run };

    ghost invariant = { λ a. KeepsClocks a.run a.clocks a.parts.items };
}

impl Clocked {
    /// The clocks of a plan, with the order of its slow run, which leaves no job. The error is want of
    /// memory.
    pub fn new(alloc: Global, plan: Plan, order: List<u32>) -> Result<Clocked, AllocError>
        requires complete { IsComplete plan }
        requires order { order ≡ slow_order plan }
        ensures { IfOk result (λ clocked. clocked ≡ plan) }
    {
        let run = CompleteRun::new(alloc, plan, order)?;
        let clocks = clock_table(alloc, &run)?;
        let parts = all_parts(alloc, &run, &clocks)?;
        Ok(Clocked { run, clocks, parts })
    }

    /// Whether one job happens before another.
    ///
    /// Source: Vulkan 1.3, "Execution and Memory Dependencies".
    pub fn before(&self, i: u32, j: u32) -> bool
        requires first { i < length self.now.jobs }
        requires second { j < length self.now.jobs }
        ensures { IsTrue result ↔ HappensBefore self.now i j }
    {
        i < at(&self.clocks, self.run.position(j), self.run.lane(i))
    }

    /// The job of a command.
    ///
    /// Source: Vulkan 1.3, "Queue Submission".
    pub fn owner(&self, c: u32) -> u32
        requires { IsOfSomeJob self.now c }
        ensures { (j : ℕ) → has (commands_of self.now j) c ≡ true → result ≡ j }
    {
        self.plan().owner(c)
    }

    /// How many commands of its job are before a command. They are numbered one after another.
    fn ahead(&self, j: u32, d: u32) -> u32
        requires { has (commands_of self.now j) d ≡ true }
        ensures { stage_of self.now j d ≡ At (suc result) }
    {
        d - self.job(j).commands.first()
    }

    /// Whether the commands of one job happen before a command of another.
    ///
    /// Source: Vulkan 1.3, "Execution and Memory Dependencies".
    pub fn before_command(&self, i: u32, j: u32, d: u32) -> bool
        requires first { i < length self.now.jobs }
        requires second { has (commands_of self.now j) d ≡ true }
        ensures { IsTrue result ↔ HappensBeforeCommand self.now i j d }
    {
        match self.parts.get(j as usize) {
            Some(parts) => self.before_place(parts, i, j, d),
            None => self.before(i, j),
        }
    }

    /// Whether the commands of one job happen before a command of another, which has these parts.
    #[inline(never)]
    fn before_place(&self, parts: &Parts, i: u32, j: u32, d: u32) -> bool
        requires parts { AreParts self.now j parts.now }
        requires first { i < length self.now.jobs }
        requires second { has (commands_of self.now j) d ≡ true }
        ensures { IsTrue result ↔ HappensBeforeCommand self.now i j d }
    {
        let part = ends_before(parts.ends.as_slice(), self.ahead(j, d));
        if part == parts.ends.len() {
            return self.before(i, j);
        }
        i < at(&parts.rows, part, self.run.lane(i))
    }

    /// Whether a signal operation is sure to be made before a job ends.
    ///
    /// Source: Vulkan 1.3, "Semaphore Waiting" and "Queue Submission".
    pub fn is_sure(&self, op: u32, j: u32) -> bool
        requires first { op < length self.now.ops }
        requires second { j < length self.now.jobs }
        ensures { IsTrue result ↔ IsSure self.now op j }
    {
        let job = self.run.plan().op(op).job;
        let lane = self.run.lanes() + self.run.lane(job);
        op < at(&self.clocks, self.run.position(j), lane)
    }

    /// The plan.
    pub fn plan(&self) -> &Plan
        ensures value { result.now ≡ self.now }
        ensures complete { IsComplete self.now }
    {
        self.run.plan()
    }

    /// The jobs in the order of the slow run.
    pub fn slow_order(&self) -> &[u32]
        ensures value { result.now ≡ slow_order self.now }
        ensures complete { IsComplete self.now }
    {
        self.run.order()
    }

    /// How many jobs there are.
    pub fn jobs(&self) -> u32
        ensures { result ≡ length self.now.jobs }
    {
        self.plan().jobs()
    }

    /// A job.
    pub fn job(&self, j: u32) -> &PlanJob
        requires { j < length self.now.jobs }
        ensures value { slice_get self.now.jobs j ≡ Some result.now }
        ensures complete { IsComplete self.now }
    {
        self.plan().job(j)
    }

    /// Whether a job is a batch of an immediate queue.
    pub fn is_immediate(&self, j: u32) -> bool
        requires { j < length self.now.jobs }
        ensures { result ≡ is_immediate_batch self.now j }
    {
        self.plan().is_immediate(j)
    }

    /// A signal operation.
    pub fn op(&self, e: u32) -> Op
        requires { e < length self.now.ops }
        ensures value { slice_get self.now.ops e ≡ Some result }
        ensures complete { IsComplete self.now }
    {
        self.plan().op(e)
    }

    /// How many chains there are.
    pub fn chains(&self) -> u32
        ensures value { result ≡ length self.now.chains }
        ensures complete { IsComplete self.now }
    {
        self.plan().chains()
    }

    /// The signal operations of a chain.
    pub fn chain(&self, t: u32) -> &[u32]
        requires { t < length self.now.chains }
        ensures value { result.now ≡ chain self.now t }
        ensures complete { IsComplete self.now }
    {
        self.plan().chain(t)
    }

    /// The payload of a chain before its first signal.
    pub fn initial(&self, t: u32) -> u64
        requires { t < length self.now.chains }
        ensures { result ≡ initial self.now t }
    {
        self.plan().initial(t)
    }

    /// What a chain is the chain of.
    pub fn kind(&self, t: u32) -> SemaphoreKind
        requires { t < length self.now.chains }
        ensures value { kind_of self.now.script t ≡ Some result }
        ensures complete { IsComplete self.now }
    {
        self.plan().script().semaphores.as_slice()[t as usize].kind
    }
}
