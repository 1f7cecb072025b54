//! The steps on the word of a job.
//!
//! Source: this project's own, where an item names no other.
ghost use Rattle.std.specs.Prelude.{◌≡◌, ◌<◌, ◌≤◌, length};
ghost use Rattle.vq_board_laws.specs.declared.view.JobState.{JobState};
ghost use Rattle.vq_board_laws.specs.declared.view.Fact.TheVariants.{Job};
ghost use Rattle.vq_board_laws.specs.Knowledge.{state_at, state_number, Knows};
ghost use Rattle.vq_board_laws.specs.May.{MaySubmit, MayRelease, MayStart, MayFinish};
ghost use Rattle.vq_board_laws.specs.Steps.{looks, submits, releases, starts, finishes};
ghost use Rattle.vq_board_laws.specs.Words.{job_word};
ghost use Rattle.vq_board.specs.Named.{plan_of, view, role_of, IsOf, Turns, Finds, Leaves};

use crate::parts::{Board, Pass};
use crate::plays::{Finish, LookAtJob, Release, Start, Submit};
use crate::words::job_word;
use vq_board_laws::view::{JobState, Role};

/// The state of a job with this word.
fn state_of(word: u64) -> JobState
    ensures { result ≡ state_at word }
{
    match word {
        0 => JobState::Waiting,
        1 => JobState::Submitted,
        2 => JobState::Released,
        3 => JobState::Started,
        _ => JobState::Finished,
    }
}

impl Pass {
    /// Whose pass this is.
    pub fn role(&self) -> Role
        ensures { result ≡ role_of self.now }
    {
        self.role
    }
}

impl Board {
    /// How far a job is. The pass knows it from then on.
    pub fn job_state(&self, pass: &mut Pass, job: u32) -> JobState
        requires board { IsOf self.now pass.old }
        requires exists { job < length (plan_of self.now).jobs }
        ensures pass { Turns pass.old pass.new (looks (view pass.old) job result) }
        ensures stays { (s : JobState) → Knows (view pass.old).known (Job job s) →
            state_number s ≤ state_number result }
        ensures step { Finds self.now pass.old pass.new (job_word job) (state_number result) }
    {
        let word = self
            .table
            .shared
            .load::<LookAtJob>(&mut pass.seat, job_word(job));
        state_of(word)
    }

    /// The host submits the next batch of the script.
    ///
    /// Source: Vulkan 1.3, "Queue Submission". That a batch is submitted once all host steps before
    /// it are finished is this project's rule.
    pub fn submit(&self, pass: &mut Pass, job: u32)
        requires board { IsOf self.now pass.old }
        requires may { MaySubmit (plan_of self.now) (view pass.old) job }
        ensures pass { Turns pass.old pass.new (submits (view pass.old) job) }
        ensures step { Leaves self.now pass.old pass.new (job_word job) 1 }
    {
        self.table
            .shared
            .store::<Submit>(&mut pass.seat, job_word(job), 1);
    }

    /// Hands the next batch of a queue to the device.
    pub fn release(&self, pass: &mut Pass, job: u32)
        requires board { IsOf self.now pass.old }
        requires may { MayRelease (plan_of self.now) (view pass.old) job }
        ensures pass { Turns pass.old pass.new (releases (view pass.old) job) }
        ensures step { Leaves self.now pass.old pass.new (job_word job) 2 }
    {
        self.table
            .shared
            .store::<Release>(&mut pass.seat, job_word(job), 2);
    }

    /// Starts a job, which the pass runs from then on.
    ///
    /// Source: Vulkan 1.3, "Semaphore Waiting". That the jobs of a lane run one after another is this
    /// project's rule.
    pub fn start(&self, pass: &mut Pass, job: u32)
        requires board { IsOf self.now pass.old }
        requires may { MayStart (plan_of self.now) (view pass.old) job }
        ensures pass { Turns pass.old pass.new (starts (view pass.old) job) }
        ensures step { Leaves self.now pass.old pass.new (job_word job) 3 }
    {
        pass.runs = Some(job);
        self.table
            .shared
            .store::<Start>(&mut pass.seat, job_word(job), 3);
    }

    /// Finishes the job that the pass runs.
    pub fn finish(&self, pass: &mut Pass, job: u32)
        requires board { IsOf self.now pass.old }
        requires exists { job < length (plan_of self.now).jobs }
        requires may { MayFinish (plan_of self.now) (view pass.old) job }
        ensures pass { Turns pass.old pass.new (finishes (view pass.old) job) }
        ensures step { Leaves self.now pass.old pass.new (job_word job) 4 }
    {
        pass.runs = None;
        self.table
            .shared
            .store::<Finish>(&mut pass.seat, job_word(job), 4);
    }
}
