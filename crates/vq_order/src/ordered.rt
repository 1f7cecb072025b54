//! Plans that were checked.
//!
//! Source: this project's own, where an item names no other.
ghost use Rattle.std.specs.Prelude.{◌≡◌, ◌<◌, ◌≤◌, ◌↔◌, ℕ, IsTrue, length, true};
ghost use Rattle.std.specs.List.{slice_index_or};
ghost use Rattle.vq_model.specs.Checks.{IsLawful};
ghost use Rattle.vq_model.specs.HappensBefore.{HappensBefore, HappensBeforeCommand};
ghost use Rattle.vq_model.specs.LoweredPlans.{IsPlan};
ghost use Rattle.vq_model.specs.Plan.{chain, commands_of};
ghost use Rattle.vq_ground.specs.Lists.{has};
ghost use Rattle.vq_model.specs.SlowRun.{slow_order};
ghost use Rattle.vq_model.specs.Sure.{IsSure};
ghost use Rattle.vq_model.specs.OrderAnswers.{IsGreatest};
ghost use Rattle.vq_model.specs.Windows.{IsSurelyReached, IsPossiblyReached};
ghost use Rattle.vq_order.specs.CommandPairs.{AreOfTwoJobs};
ghost use Rattle.vq_order.specs.Counts.{value_after, MayBeMade};

use crate::searching::count_first;
use std::marker::Model;
use vq_clocks::Clocked;
use vq_spec::Plan;

/// A lawful plan, with the order of its jobs and of its signals.
pub struct Ordered {
    order: Clocked,
}

impl Drop for Ordered {
    fn drop(self) {
        let Ordered { order: _order } = self;
    }
}

impl Model for Ordered {
    ghost use Rattle.vq_model.specs.Checks.{IsLawful};
    ghost use Rattle.vq_model.specs.Plan.{Plan as Lowered};

    ghost Value = { Lowered };

    ghost view = { λ a. a.order };

    ghost invariant = { λ a. IsLawful a.order };
}

impl Ordered {
    /// A lawful plan, with the order of its jobs.
    pub(crate) fn of(order: Clocked) -> Ordered
        requires { IsLawful order }
        ensures { result ≡ order }
    {
        Ordered { order }
    }

    /// The plan.
    pub fn plan(&self) -> &Plan
        ensures value { result.now ≡ self.now }
        ensures lawful { IsLawful self.now }
        ensures read { IsPlan self.now }
    {
        self.order.plan()
    }

    /// The jobs in the order of the slow run, which does them all.
    pub fn slow_order(&self) -> &[u32]
        ensures { result.now ≡ slow_order self.now }
    {
        self.order.slow_order()
    }

    /// Whether one job happens before another.
    ///
    /// Source: Vulkan 1.3, "Execution and Memory Dependencies".
    pub fn before(&self, i: u32, j: u32) -> bool
        requires first { i < length self.now.jobs }
        requires second { j < length self.now.jobs }
        ensures { IsTrue result ↔ HappensBefore self.now i j }
    {
        self.order.before(i, j)
    }

    /// Whether a command happens before a command of another job. Waits that hold back only later
    /// commands of that job don't count.
    ///
    /// Source: Vulkan 1.3, "Execution and Memory Dependencies".
    pub fn command_before(&self, a: u32, b: u32) -> bool
        requires { AreOfTwoJobs self.now a b }
        ensures { (i j : ℕ) → has (commands_of self.now i) a ≡ true →
            has (commands_of self.now j) b ≡ true →
            IsTrue result ↔ HappensBeforeCommand self.now i j b }
    {
        self.order
            .before_command(self.order.owner(a), self.order.owner(b), b)
    }

    /// Whether a signal operation is sure to be made before a job ends.
    ///
    /// Source: Vulkan 1.3, "Semaphore Waiting" and "Queue Submission".
    pub fn is_sure(&self, op: u32, j: u32) -> bool
        requires op_exists { op < length self.now.ops }
        requires exists { j < length self.now.jobs }
        ensures { IsTrue result ↔ IsSure self.now op j }
    {
        self.order.is_sure(op, j)
    }

    /// What a chain has surely reached when a host step starts, or by the end of a batch, some of whose waits may hold
    /// back a part of it only: the greatest such number.
    ///
    /// Source: Vulkan 1.3, "Host Operations on Semaphores".
    pub fn floor(&self, j: u32, t: u32) -> u64
        requires exists { j < length self.now.jobs }
        requires chain { t < length self.now.chains }
        ensures { IsGreatest (IsSurelyReached self.now j t) result }
    {
        let ops = self.plan().chain(t);
        let count = count_first(
            ops.len(),
            |k|
                requires place { k < length ops.now }
                requires exists { slice_index_or ops.now k 0 < length self.now.ops }
                requires job { j < length self.now.jobs }
                ensures { IsTrue result ↔ IsSure self.entry.now (slice_index_or ops.entry.now k 0) j }
            { self.is_sure(ops[k], j) },
        );
        self.value_after(t, count)
    }

    /// What a chain may have reached while a job runs: the greatest such number.
    ///
    /// Source: Vulkan 1.3, "Host Operations on Semaphores".
    pub fn ceiling(&self, j: u32, t: u32) -> u64
        requires exists { j < length self.now.jobs }
        requires chain { t < length self.now.chains }
        ensures { IsGreatest (IsPossiblyReached self.now j t) result }
    {
        let ops = self.plan().chain(t);
        let count = count_first(
            ops.len(),
            |k|
                requires place { k < length ops.now }
                requires exists { slice_index_or ops.now k 0 < length self.now.ops }
                requires job { j < length self.now.jobs }
                ensures { IsTrue result ↔ MayBeMade self.entry.now j (slice_index_or ops.entry.now k 0) }
            { self.is_possible(ops[k], j) },
        );
        self.value_after(t, count)
    }

    /// Whether an operation may be made while a job runs: its job is another one and doesn't come
    /// after it.
    fn is_possible(&self, op: u32, j: u32) -> bool
        requires op_exists { op < length self.now.ops }
        requires exists { j < length self.now.jobs }
        ensures { IsTrue result ↔ MayBeMade self.now j op }
    {
        let job = self.plan().op(op).job;
        job != j && !self.before(j, job)
    }

    /// The value of a chain after so many of its operations.
    fn value_after(&self, t: u32, count: usize) -> u64
        requires chain { t < length self.now.chains }
        requires within { count ≤ length (chain self.now t) }
        ensures { result ≡ value_after self.now t count }
    {
        let plan = self.plan();
        if count == 0 {
            return plan.initial(t);
        }
        plan.op(plan.chain(t)[count - 1]).value
    }
}
