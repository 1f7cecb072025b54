//! What jobs have come to: their commands, their signals and their waits.
ghost use Rattle.std.specs.Prelude.{◌≡◌, ◌<◌, ◌+◌, ◌-◌, ◌↔◌, IsTrue};
ghost use Rattle.std.specs.Prelude.{length, true};
ghost use Rattle.std.specs.Prelude.{false};
ghost use Rattle.std.specs.List.{list_all, list_any, slice_get};
ghost use Rattle.vq_model.specs.Edges.{At, AtEnd, needs_at};
ghost use Rattle.vq_model.specs.Machine.{next, are_reached, is_reached};
ghost use Rattle.vq_model.specs.Plan.{commands_of, signals_of, needs};
ghost use Rattle.vq_ground.specs.Lists.{has};
ghost use Rattle.vq_point_laws.specs.Points.{earlier_in_queue};
ghost use Rattle.vq_core.specs.CoreState.{world};
ghost use Rattle.vq_tables.specs.Tables.{IsJobState};

use crate::state::Core;
use vq_spec::{all_reached, any_reached};
use vq_tables::{JobRecord, one_reached_after, reached_after};

/// An element of a list, if it has so many.
fn element(items: &[u32], place: usize) -> Option<u32>
    ensures { result ≡ slice_get items.now place }
{
    match items.get(place) {
        Some(item) => Some(*item),
        None => None,
    }
}

impl Core {
    /// What a job has come to.
    pub(crate) fn job_state(&self, job: u32) -> JobRecord
        ensures { IsJobState self.now.plan (world self.now).released (world self.now).machine.progress.started
            (world self.now).machine.progress.finished (world self.now).machine.progress.made
            (world self.now).machine.progress.applied job result }
    {
        self.jobs.at(job, JobRecord::idle())
    }

    /// Whether a job is the first of its lane that isn't released.
    pub(crate) fn is_turn(&self, job: u32) -> bool
        requires { job < length self.now.plan.jobs }
        ensures { IsTrue result ↔ (((world self.now).released job ≡ false)
            × (list_all (world self.now).released (earlier_in_queue self.now.plan job) ≡ true)) }
    {
        let lane = self.plan().job(job).lane.number();
        match self.lanes.next_released(lane) {
            Some(next) => next == job,
            None => false,
        }
    }

    /// Whether all commands of a job are applied.
    pub(crate) fn commands_done(&self, job: u32) -> bool
        requires { job < length self.now.plan.jobs }
        ensures { result ≡ list_all (has (world self.now).machine.progress.applied) (commands_of self.now.plan job) }
    {
        self.job_state(job).commands == self.plan().job(job).commands.len()
    }

    /// The first command of a job that isn't applied.
    pub(crate) fn next_command(&self, job: u32) -> Option<u32>
        requires { job < length self.now.plan.jobs }
        ensures { result ≡ next (has (world self.now).machine.progress.applied) (commands_of self.now.plan job) }
    {
        element(self.plan().commands_of(job), self.job_state(job).commands)
    }

    /// Whether all signals of a job are made.
    pub(crate) fn signals_done(&self, job: u32) -> bool
        requires { job < length self.now.plan.jobs }
        ensures { result ≡ list_all (world self.now).machine.progress.made (signals_of self.now.plan job) }
    {
        self.job_state(job).signals == self.plan().job(job).signals.len()
    }

    /// The first signal operation of a job that isn't made.
    pub(crate) fn next_signal(&self, job: u32) -> Option<u32>
        requires { job < length self.now.plan.jobs }
        ensures { result ≡ next (world self.now).machine.progress.made (signals_of self.now.plan job) }
    {
        element(self.plan().signals_of(job), self.job_state(job).signals)
    }

    /// Whether all needs of a job are reached that hold back what comes after so many commands.
    fn all_after(&self, job: u32, done: usize) -> bool
        requires { job < length self.now.plan.jobs }
        ensures { result ≡ list_all (is_reached (world self.now).machine.progress.payload)
            (needs_at self.now.plan job (At (done + 1))) }
    {
        let needs = self.plan().job(job).needs.as_slice();
        reached_after(self.payloads.as_slice(), needs, done)
    }

    /// Whether one need of a job is reached that holds back what comes after so many commands.
    fn any_after(&self, job: u32, done: usize) -> bool
        requires { job < length self.now.plan.jobs }
        ensures { result ≡ list_any (is_reached (world self.now).machine.progress.payload)
            (needs_at self.now.plan job (At (done + 1))) }
    {
        let needs = self.plan().job(job).needs.as_slice();
        one_reached_after(self.payloads.as_slice(), needs, done)
    }

    /// Whether the needs of a job are reached that hold back what comes after so many commands: all, or one
    /// where one is enough.
    pub(crate) fn is_reached_after(&self, job: u32, done: usize) -> bool
        requires { job < length self.now.plan.jobs }
        ensures { result ≡ are_reached self.now.plan (world self.now).machine.progress.payload job (At (done + 1)) }
    {
        if self.waits_for_any(job) {
            return self.any_after(job, done);
        }
        self.all_after(job, done)
    }

    /// Whether all needs of a job are reached.
    fn all_at_end(&self, job: u32) -> bool
        requires { job < length self.now.plan.jobs }
        ensures { result ≡ list_all (is_reached (world self.now).machine.progress.payload) (needs self.now.plan job) }
    {
        let needs = self.plan().job(job).needs.as_slice();
        all_reached(self.payloads.as_slice(), needs)
    }

    /// Whether one need of a job is reached.
    fn any_at_end(&self, job: u32) -> bool
        requires { job < length self.now.plan.jobs }
        ensures { result ≡ list_any (is_reached (world self.now).machine.progress.payload) (needs self.now.plan job) }
    {
        let needs = self.plan().job(job).needs.as_slice();
        any_reached(self.payloads.as_slice(), needs)
    }

    /// Whether the needs of a job are reached: all, or one where one is enough.
    pub(crate) fn is_reached_at_end(&self, job: u32) -> bool
        requires { job < length self.now.plan.jobs }
        ensures { result ≡ are_reached self.now.plan (world self.now).machine.progress.payload job AtEnd }
    {
        if self.waits_for_any(job) {
            return self.any_at_end(job);
        }
        self.all_at_end(job)
    }
}
