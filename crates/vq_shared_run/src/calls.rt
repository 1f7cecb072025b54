//! What an actor with its share of a run is asked.
//!
//! Source: this project's own, over Vulkan 1.3, "Queue Submission".
ghost use Rattle.std.specs.Prelude.{◌≡◌, IfSome, Some, None};
ghost use Rattle.std.specs.Arc.{arc_value};
ghost use Rattle.std.specs.List.{slice_get};
ghost use Rattle.vq_model.specs.Plan.{line_of_job};
ghost use Rattle.vq_shared_run.specs.Players.{HasNotLeft, HasShut, IsLeftIn, IsLookBy, IsTurnBy};
ghost use Rattle.vq_shared_run.specs.Players.{actor_of, answers_of, number_of, ordered_of};
ghost use Rattle.vq_shared_run.specs.Stands.{HasLooked, IsTurnOf};

use crate::answers::{Look, Shut};
use crate::end::shut;
use crate::looks::looked;
use crate::player::{Player, Playing};
use crate::stand::Stand;
use crate::turns::acted;
use core::mem::replace_with;
use std::ops::Deref;
use vq_board_run::line_of;
use vq_model::plan::{AnswerLine, Op};
use vq_model::script::ActorName;
use vq_order::Ordered;
use vq_turns::outcome::Outcome;

impl Playing {
    /// A turn of the actor.
    fn turn(&mut self) -> Outcome
        ensures same { self.new.run ≡ self.old.run }
        ensures turn { IsTurnOf (arc_value self.old.run).ordered self.old.stand self.new.stand result }
    {
        replace_with(&mut self.stand, self.run.deref(), acted)
    }

    /// Whether all jobs are finished, as far as the actor can say.
    fn look(&mut self) -> Look
        ensures same { self.new.run ≡ self.old.run }
        ensures look { HasLooked (arc_value self.old.run).board self.old.stand self.new.stand result }
    {
        replace_with(&mut self.stand, self.run.deref(), looked)
    }
}

/// The number by which callers from outside name an actor: 0 for the host, and for queue q the number 2q + 1 for its
/// submit actor and 2q + 2 for its ring.
pub fn number_of(actor: ActorName) -> u64
    ensures { result ≡ number_of actor }
{
    match actor {
        ActorName::Host => 0,
        ActorName::Submit(queue) => 2 * u64::from(queue) + 1,
        ActorName::Ring(queue) => 2 * u64::from(queue) + 2,
    }
}

impl Player {
    /// A turn of the actor: the event that it made, what it waits for, or that it has ended. The host's serves the
    /// submit actors of deferred queues too. It waits for nobody and takes no memory. While another asks the same
    /// chain's lists, it is blocked on these.
    pub fn turn(&mut self) -> Outcome
        ensures { IsTurnBy self.old self.new result }
    {
        match self {
            Player::Playing(playing) => playing.turn(),
            Player::Left(_) => Outcome::Ended,
        }
    }

    /// Whether all jobs are finished. The host looks, from where it looked last, once its program has ended.
    pub fn finished(&mut self) -> Look
        ensures { IsLookBy self.old self.new result }
    {
        match self {
            Player::Playing(playing) => playing.look(),
            Player::Left(_) => Look::Finished,
        }
    }

    /// Closes the board, where all jobs are finished and no other actor has its share still. It takes no memory.
    pub fn close(&mut self) -> Shut
        ensures { HasShut self.old self.new result }
    {
        replace_with(self, (), shut)
    }

    /// The plan.
    pub fn ordered(&self) -> &Ordered
        ensures { result.now ≡ ordered_of self.now }
    {
        match self {
            Player::Playing(playing) => &playing.run.deref().ordered,
            Player::Left(left) => &left.ordered,
        }
    }

    /// Which actor it is.
    pub fn actor(&self) -> ActorName
        ensures { result ≡ actor_of self.now }
    {
        match self {
            Player::Playing(playing) => match &playing.stand {
                Stand::Worker(room) => room.owner(),
                Stand::Host(_) | Stand::Ended(_) => ActorName::Host,
            },
            Player::Left(_) => ActorName::Host,
        }
    }

    /// What the host's steps were answered so far, in the order of the script, with the lines of the steps; `None` where
    /// the actor isn't the host.
    pub fn answers(&self) -> Option<&[AnswerLine]>
        ensures some { IfSome result (λ lines. answers_of self.now ≡ Some lines.now) }
        ensures none { result ≡ None → answers_of self.now ≡ None }
    {
        match self {
            Player::Playing(playing) => match &playing.stand {
                Stand::Worker(_) => None,
                Stand::Host(lead) => Some(lead.answers.as_slice()),
                Stand::Ended(watch) => Some(watch.answers.as_slice()),
            },
            Player::Left(left) => Some(left.answers.as_slice()),
        }
    }

    /// The bytes that the run has left in a buffer, once the board is closed.
    pub fn bytes(&self, buffer: u32) -> Option<&[u8]>
        ensures some { IfSome result (λ bytes. IsLeftIn self.now buffer bytes.now) }
        ensures none { result ≡ None → HasNotLeft self.now buffer }
    {
        let Player::Left(left) = self else {
            return None;
        };
        let buffers = left.closed.buffers();
        if buffer < buffers.count() {
            Some(buffers.bytes(buffer))
        } else {
            None
        }
    }

    /// The line of a job: of a batch, or of a step of the host. 0 where there is no such job.
    pub fn line_of(&self, job: u32) -> u32
        ensures { result ≡ line_of_job (ordered_of self.now) job }
    {
        line_of(self.ordered().plan(), job)
    }

    /// A signal operation, if the plan has it.
    pub fn op(&self, op: u32) -> Option<Op>
        ensures { result ≡ slice_get (ordered_of self.now).ops op }
    {
        let plan = self.ordered().plan();
        if op < plan.ops() {
            Some(plan.op(op))
        } else {
            None
        }
    }
}
