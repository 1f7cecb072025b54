//! The events of jobs.
//!
//! Source: this project's own.
ghost use Rattle.std.specs.Prelude.{◌≡◌, Ok, IfErr};
ghost use Rattle.vq_access.specs.Posts.{meaning, shows};
ghost use Rattle.vq_actor.specs.Answers.{AnswersEvent, AnswersTry, Is};
ghost use Rattle.vq_actor.specs.Meanings.{IsNext};
ghost use Rattle.vq_actor.specs.Wants.{IsExchangeAmong};
ghost use Rattle.vq_model.specs.Plan.{signals_of};
ghost use Rattle.vq_turns.specs.Turns.{forward};
ghost use Rattle.vq_turns.specs.declared.task.Task.{Task};

use crate::asking::Lists;
use crate::last::Last;
use crate::post::Post;
use crate::takings::untaken;
use vq_actor::Step;
use vq_model::plan::Event;

impl<'a> Post<'a> {
    /// Submits a batch.
    pub(crate) fn submit(&mut self, job: u32) -> Event
        requires { IsNext (meaning self.old) (Task.Submit job) }
        ensures { AnswersEvent (meaning self.old) (meaning self.new) (forward (meaning self.old).place)
            (Event.Submit job) (shows self.new) result }
    {
        self.last = Last::Other;
        let _lawful = self.ordered.plan();
        self.board.submit(self.pass, job);
        self.seat.forward();
        Event::Submit { job }
    }

    /// Releases a batch, where the words of the points of its signals show them taken. Which points these are, the
    /// lists of their chains say; where these are in use it looks where it would where they have no point.
    pub(crate) fn release<L: Lists>(&mut self, lists: &L, job: u32) -> Step
        requires { IsNext (meaning self.old) (Task.Release job) }
        ensures answer { AnswersTry (meaning self.old) (meaning self.new) (forward (meaning self.old).place)
            (λ w. Ok (Event.Release job)) (Is (Event.Release job)) (shows self.new) result }
        ensures wants { IfErr result (IsExchangeAmong (signals_of (meaning self.old).plan job)) }
    {
        self.last = Last::Other;
        let signals = self.ordered.plan().signals_of(job);
        if let Some(want) = untaken(
            lists,
            self.ordered,
            self.board,
            self.timelines,
            self.pass,
            signals,
        ) {
            return Err(want);
        }
        self.board.release(self.pass, job);
        self.seat.forward();
        Ok(Event::Release { job })
    }

    /// Starts a job.
    pub(crate) fn start(&mut self, job: u32) -> Event
        requires { IsNext (meaning self.old) (Task.Start job) }
        ensures { AnswersEvent (meaning self.old) (meaning self.new) (forward (meaning self.old).place)
            (Event.Start job) (shows self.new) result }
    {
        self.last = Last::Other;
        let _lawful = self.ordered.plan();
        self.board.start(self.pass, job);
        self.seat.forward();
        Event::Start { job }
    }

    /// Finishes a job.
    pub(crate) fn finish(&mut self, job: u32) -> Event
        requires { IsNext (meaning self.old) (Task.Finish job) }
        ensures { AnswersEvent (meaning self.old) (meaning self.new) (forward (meaning self.old).place)
            (Event.Finish job) (shows self.new) result }
    {
        self.last = Last::Other;
        let _lawful = self.ordered.plan();
        self.board.finish(self.pass, job);
        self.seat.forward();
        Event::Finish { job }
    }
}
