//! References to points.
//!
//! Source: this project's own.
ghost use Rattle.std.specs.Prelude.{◌≡◌, Ok, IfErr};
ghost use Rattle.vq_access.specs.Lasts.{recent_of};
ghost use Rattle.vq_access.specs.Posts.{meaning, shows};
ghost use Rattle.vq_actor.specs.Answers.{AnswersTry, Is, signaled_or};
ghost use Rattle.vq_actor.specs.Waits.{MayRefer, MayLook, MayUnrefer, referred, looked_at, given_back, need_found};
ghost use Rattle.vq_actor.specs.Wants.{IsExchangeOf};
ghost use Rattle.vq_turns.specs.declared.outcome.Want.{Want as AnyWant};

use crate::last::Last;
use crate::post::Post;
use vq_actor::Step;
use vq_board::{Lost, Referred};
use vq_model::plan::Event;
use vq_model::script::ActorName;
use vq_turns::outcome::Want;

/// The need for which a pending operation was found last, 0 after another call.
fn need_found(last: Last) -> usize
    ensures { result ≡ need_found (recent_of last) }
{
    match last {
        Last::FoundAt { need, .. } => need,
        Last::Other => 0,
        Last::Collected { .. } => 0,
    }
}

impl<'a> Post<'a> {
    /// Takes a reference to a point that was found for a need, where its word still carries the operation and
    /// isn't changed by others meanwhile.
    pub(crate) fn refer(&mut self, actor: ActorName, point: u32, op: u32) -> Step
        requires { MayRefer (meaning self.old) actor point op }
        ensures answer { AnswersTry (meaning self.old) (meaning self.new) (referred (meaning self.old) point op)
            (λ w. Ok (Event.Refer actor point op)) (Is (Event.Refer actor point op)) (shows self.new) result }
        ensures wants { IfErr result (IsExchangeOf op) }
    {
        let need = need_found(self.last);
        self.last = Last::Other;
        let _lawful = self.ordered.plan();
        match self.board.refer(self.pass, point, op) {
            Referred::Held => {}
            Referred::MovedOn { found } => return Err(Want::Exchange { op, found }),
            Referred::Lost { found } => return Err(Want::Exchange { op, found }),
        }
        self.seat.refer(need, point, op);
        Ok(Event::Refer { actor, point, op })
    }

    /// Looks whether the operation of a reference is signaled.
    pub(crate) fn look(&mut self, actor: ActorName, point: u32, op: u32) -> Step
        requires { MayLook (meaning self.old) actor point op }
        ensures answer { AnswersTry (meaning self.old) (meaning self.new) (looked_at (meaning self.old).place)
            (λ w. signaled_or w (Event.Look actor point op) op) (Is (Event.Look actor point op))
            (shows self.new) result }
        ensures wants { IfErr result (λ want. want ≡ AnyWant.Signaled op) }
    {
        self.last = Last::Other;
        let _lawful = self.ordered.plan();
        if !self.board.look(self.pass, point).signaled {
            return Err(Want::Signaled { op });
        }
        self.seat.meet();
        Ok(Event::Look { actor, point, op })
    }

    /// Gives a reference back, where the point's word isn't changed by others meanwhile.
    pub(crate) fn unrefer(&mut self, actor: ActorName, point: u32, op: u32) -> Step
        requires { MayUnrefer (meaning self.old) actor point op }
        ensures answer { AnswersTry (meaning self.old) (meaning self.new)
            (given_back (meaning self.old).place (meaning self.old).place.holding)
            (λ w. Ok (Event.Unref actor point op)) (Is (Event.Unref actor point op)) (shows self.new) result }
        ensures wants { IfErr result (IsExchangeOf op) }
    {
        self.last = Last::Other;
        let _lawful = self.ordered.plan();
        if let Err(Lost { found }) = self.board.unrefer(self.pass, point, op) {
            return Err(Want::Exchange { op, found });
        }
        self.seat.give_back();
        Ok(Event::Unref { actor, point, op })
    }
}
