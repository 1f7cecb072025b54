//! The needs of jobs, and the operations that resolve them.
ghost use Rattle.std.specs.Prelude.{◌≡◌, ◌==◌, ◌<◌, ◌||◌, All, length};
ghost use Rattle.std.specs.Prelude.{nat_le};
ghost use Rattle.std.specs.Prelude.{is_some, false};
ghost use Rattle.std.specs.List.{list_all, list_any, position_or_len};
ghost use Rattle.std.specs.Option.{option_map_or, option_to_list};
ghost use Rattle.vq_model.specs.Plan.{initial, resolver, needs, signals_of, previous, idle_after, waits_for_any};
ghost use Rattle.vq_point_laws.specs.Points.{are_needs_pending, resolves, needs_resolved, needs_now};
ghost use Rattle.vq_core.specs.CoreState.{world};
ghost use Rattle.vq_tables.specs.Notes.{place_in};

use crate::state::Core;
use vq_spec::Need;
use vq_tables::{any_resolved, count_resolved, place_among};

/// The place of a number among some, or how many there are.
fn place_of(numbers: &[u32], number: u32) -> usize
    ensures { result ≡ position_or_len (λ n. n == number) numbers.now }
{
    let mut place = 0;
    for other in numbers {
        if *other == number {
            return place;
        }
        place += 1;
    }
    place
}

impl Core {
    /// Whether one of its needs is enough for a job.
    pub(crate) fn waits_for_any(&self, job: u32) -> bool
        requires { job < length self.now.plan.jobs }
        ensures { result ≡ waits_for_any self.now.plan job }
    {
        self.plan().job(job).any
    }

    /// What a job waits for.
    pub(crate) fn needs(&self, job: u32) -> &[Need]
        requires { job < length self.now.plan.jobs }
        ensures value { result.now ≡ needs self.now.plan job }
        ensures exist { All (λ n. n.chain < length self.now.plan.chains) result.now }
    {
        self.plan().job(job).needs.as_slice()
    }

    /// The signal operations of a job.
    pub(crate) fn signals(&self, job: u32) -> &[u32]
        requires { job < length self.now.plan.jobs }
        ensures value { result.now ≡ signals_of self.now.plan job }
        ensures exist { All (λ e. e < length self.now.plan.ops) result.now }
    {
        self.plan().signals_of(job)
    }

    /// Whether a need has a pending or a past signal, or was reached from the beginning.
    fn is_need_pending(&self, need: Need) -> bool
        requires { need.chain < length self.now.plan.chains }
        ensures { result ≡ (nat_le need.value (initial self.now.plan need.chain)
            || option_map_or (world self.now).bound (resolver self.now.plan need.chain need.value) false) }
    {
        let plan = self.plan();
        if need.value <= plan.initial(need.chain) {
            return true;
        }
        match plan.resolver(need.chain, need.value) {
            Some(op) => self.is_bound(op),
            None => false,
        }
    }

    /// Whether all needs have pending or past signals, or were reached from the beginning.
    fn are_pending(&self, needs: &[Need]) -> bool
        requires { All (λ n. n.chain < length self.now.plan.chains) needs.now }
        ensures { result ≡ list_all (λ n. nat_le n.value (initial self.now.plan n.chain)
            || option_map_or (world self.now).bound (resolver self.now.plan n.chain n.value) false) needs.now }
    {
        for need in needs {
            if !self.is_need_pending(*need) {
                return false;
            }
        }
        true
    }

    /// Whether each need of a job has a pending or a past signal, or was reached from the beginning; it
    /// isn't asked where one need is enough.
    pub(crate) fn needs_pending(&self, job: u32) -> bool
        requires { job < length self.now.plan.jobs }
        ensures { result ≡ are_needs_pending self.now.plan (world self.now) job }
    {
        if self.waits_for_any(job) {
            return true;
        }
        self.are_pending(self.needs(job))
    }

    /// How many needs of a job an operation resolves.
    pub(crate) fn needs_resolved(&self, job: u32, op: u32) -> usize
        requires { job < length self.now.plan.jobs }
        ensures { result ≡ needs_resolved self.now.plan job op }
    {
        count_resolved(self.plan(), self.needs(job), op)
    }

    /// The place of the first need of a job that an operation resolves.
    pub(crate) fn place_of_need(&self, job: u32, op: u32) -> usize
        requires { job < length self.now.plan.jobs }
        ensures { result ≡ place_in self.now.plan job op }
    {
        let (needs, awaited) = (self.needs(job), self.plan().awaited(job));
        // where each need is awaited, no chain has to be searched for what resolves it
        if awaited.len() == needs.len() {
            return place_of(awaited, op);
        }
        place_among(self.plan(), needs, op)
    }

    /// Whether a job waits now for a need that an operation resolves.
    pub(crate) fn is_needed_now(&self, job: u32, op: u32) -> bool
        requires { job < length self.now.plan.jobs }
        ensures { result ≡ list_any (resolves self.now.plan op) (needs_now self.now.plan (world self.now) job) }
    {
        let started = self.is_started(job);
        any_resolved(self.plan(), self.needs(job), op, started)
    }

    /// Whether all of these operations have points.
    fn have_points(&self, ops: &[u32]) -> bool
        requires { All (λ e. e < length self.now.plan.ops) ops.now }
        ensures { result ≡ list_all (λ e. is_some ((world self.now).point_of e)) ops.now }
    {
        for op in ops {
            if self.point_of(*op).is_none() {
                return false;
            }
        }
        true
    }

    /// Whether all signals of a job have points.
    pub(crate) fn signals_taken(&self, job: u32) -> bool
        requires { job < length self.now.plan.jobs }
        ensures { result ≡ list_all (λ e. is_some ((world self.now).point_of e)) (signals_of self.now.plan job) }
    {
        self.have_points(self.signals(job))
    }

    /// Whether the job before another one in its lane is finished, if there is one.
    pub(crate) fn previous_finished(&self, job: u32) -> bool
        requires { job < length self.now.plan.jobs }
        ensures { result ≡ list_all (world self.now).machine.progress.finished
            (option_to_list (previous self.now.plan job)) }
    {
        match self.plan().job(job).previous {
            Some(previous) => self.is_finished(previous),
            None => true,
        }
    }

    /// Whether all of these jobs are finished.
    fn are_finished(&self, jobs: &[u32]) -> bool
        ensures { result ≡ list_all (world self.now).machine.progress.finished jobs.now }
    {
        for job in jobs {
            if !self.is_finished(*job) {
                return false;
            }
        }
        true
    }

    /// Whether the jobs that an idle step waits for are finished.
    pub(crate) fn idle_finished(&self, job: u32) -> bool
        requires { job < length self.now.plan.jobs }
        ensures { result ≡ list_all (world self.now).machine.progress.finished (idle_after self.now.plan job) }
    {
        self.are_finished(self.plan().job(job).idle_after.as_slice())
    }
}
