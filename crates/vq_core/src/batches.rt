//! Batches and host steps, in the order of the script.
ghost use Rattle.std.specs.Prelude.{◌≡◌, ◌<◌, ◌||◌, IsTrue, length};
ghost use Rattle.vq_model.specs.Plan.{is_batch, is_host_step};
ghost use Rattle.vq_point_laws.specs.Points.{may_bind};
ghost use Rattle.vq_core.specs.CoreState.{IsCourse, world};
ghost use Rattle.vq_core.specs.GuardParts.{are_batches_submitted, are_steps_finished, may_start};

use crate::state::Core;
use vq_model::script::ActorName;
use vq_tables::is_host;

impl Core {
    /// Whether a job is a step of the host.
    pub(crate) fn is_host_step(&self, job: u32) -> bool
        requires { job < length self.now.plan.jobs }
        ensures { result ≡ is_host_step self.now.plan job }
    {
        is_host(self.plan().job(job).lane)
    }

    /// Whether a job is a batch.
    pub(crate) fn is_batch(&self, job: u32) -> bool
        ensures batch { result ≡ is_batch self.now.plan job }
        ensures exists { IsTrue result → job < length self.now.plan.jobs }
        ensures course { IsCourse self.now }
    {
        if job >= self.plan().jobs() {
            return false;
        }
        !self.is_host_step(job)
    }

    /// Whether all batches that are written before a job are submitted.
    pub(crate) fn batches_submitted(&self, job: u32) -> bool
        requires { job < length self.now.plan.jobs }
        ensures { result ≡ are_batches_submitted self.now.plan (world self.now) job }
    {
        self.earlier.at(job, 0) <= self.submitted
    }

    /// Whether all host steps that are written before a job are finished: they run in the order of the
    /// script, so the first that isn't finished decides.
    pub(crate) fn steps_finished(&self, job: u32) -> bool
        requires { job < length self.now.plan.jobs }
        ensures { result ≡ are_steps_finished self.now.plan (world self.now) job }
    {
        match self.next_job(ActorName::Host) {
            Some(step) => job <= step,
            None => true,
        }
    }

    /// Whether a job may bind: a batch is released, a host step started.
    pub(crate) fn may_bind(&self, job: u32) -> bool
        requires { job < length self.now.plan.jobs }
        ensures { result ≡ may_bind self.now.plan (world self.now) job }
    {
        if self.is_host_step(job) {
            return self.is_started(job);
        }
        self.is_released(job)
    }

    /// Whether an actor may refer for a job: a batch is released.
    pub(crate) fn may_refer(&self, job: u32) -> bool
        requires { job < length self.now.plan.jobs }
        ensures { result ≡ (is_host_step self.now.plan job || (world self.now).released job) }
    {
        self.is_host_step(job) || self.is_released(job)
    }

    /// Whether a job may start as far as submissions go: a batch is released; for a host step all batches
    /// that are written before it are submitted.
    pub(crate) fn may_start(&self, job: u32) -> bool
        requires { job < length self.now.plan.jobs }
        ensures { result ≡ may_start self.now.plan (world self.now) job }
    {
        if self.is_host_step(job) {
            return self.batches_submitted(job);
        }
        self.is_released(job)
    }
}
