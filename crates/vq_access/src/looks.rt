//! Looks at jobs and operations.
//!
//! Source: this project's own.
ghost use Rattle.std.specs.Prelude.{◌≡◌};
ghost use Rattle.vq_access.specs.Posts.{meaning, shows};
ghost use Rattle.vq_actor.specs.Answers.{AnswersLook};
ghost use Rattle.vq_actor.specs.Meanings.{IsNext};
ghost use Rattle.vq_turns.specs.declared.outcome.Want.{Want};
ghost use Rattle.vq_turns.specs.declared.task.Task.{Task};

use crate::last::Last;
use crate::post::Post;
use vq_board::{JobState, OpState};

impl<'a> Post<'a> {
    /// Whether a batch is submitted; where it is, the actor goes on.
    pub(crate) fn submitted(&mut self, job: u32) -> bool
        requires { IsNext (meaning self.old) (Task.AwaitSubmitted job) }
        ensures { AnswersLook (meaning self.old) (meaning self.new) (λ w. w.submitted job)
            (Want.Submitted job) (shows self.new) result }
    {
        self.last = Last::Other;
        let _lawful = self.ordered.plan();
        match self.board.job_state(self.pass, job) {
            JobState::Waiting => false,
            _ => {
                self.seat.forward();
                true
            }
        }
    }

    /// Whether a batch is released; where it is, the actor goes on.
    pub(crate) fn released(&mut self, job: u32) -> bool
        requires { IsNext (meaning self.old) (Task.AwaitReleased job) }
        ensures { AnswersLook (meaning self.old) (meaning self.new) (λ w. w.released job)
            (Want.Released job) (shows self.new) result }
    {
        self.last = Last::Other;
        let _lawful = self.ordered.plan();
        match self.board.job_state(self.pass, job) {
            JobState::Waiting | JobState::Submitted => false,
            _ => {
                self.seat.forward();
                true
            }
        }
    }

    /// Whether a job is finished; where it is, the actor goes on.
    pub(crate) fn finished(&mut self, job: u32) -> bool
        requires { IsNext (meaning self.old) (Task.AwaitFinished job) }
        ensures { AnswersLook (meaning self.old) (meaning self.new) (λ w. w.machine.progress.finished job)
            (Want.Finished job) (shows self.new) result }
    {
        self.last = Last::Other;
        let _lawful = self.ordered.plan();
        match self.board.job_state(self.pass, job) {
            JobState::Finished => {
                self.seat.forward();
                true
            }
            _ => false,
        }
    }

    /// Whether a signal operation is bound; where it is, the actor goes on.
    pub(crate) fn bound(&mut self, op: u32) -> bool
        requires { IsNext (meaning self.old) (Task.AwaitBound op) }
        ensures { AnswersLook (meaning self.old) (meaning self.new) (λ w. w.bound op)
            (Want.Bound op) (shows self.new) result }
    {
        self.last = Last::Other;
        let _lawful = self.ordered.plan();
        match self.board.recall(self.pass, op) {
            OpState::Unbound => false,
            _ => {
                self.seat.forward();
                true
            }
        }
    }
}
