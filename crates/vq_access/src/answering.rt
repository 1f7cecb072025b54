//! The answers to the host's steps.
//!
//! Source: this project's own.
ghost use Rattle.vq_access.specs.Posts.{meaning, shows};
ghost use Rattle.vq_actor.specs.Answers.{AnswersEvent, MayAnswer, answered};

use crate::last::Last;
use crate::post::Post;
use vq_model::plan::{Answer, Event};

impl<'a> Post<'a> {
    /// Answers what a job asks.
    pub(crate) fn answer(&mut self, job: u32, answer: Answer) -> Event
        requires { MayAnswer (meaning self.old) job answer }
        ensures { AnswersEvent (meaning self.old) (meaning self.new) (answered (meaning self.old).place)
            (Event.Answer job answer) (shows self.new) result }
    {
        self.last = Last::Other;
        let _lawful = self.ordered.plan();
        self.board.answer(self.pass, job, answer);
        self.seat.answer();
        Event::Answer { job, answer }
    }
}
