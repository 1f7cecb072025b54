//! An actor and its turns.
//!
//! Source: this project's own, where an item names no other.
ghost use Rattle.std.specs.Prelude.{◌≡◌, IfOk};
ghost use Rattle.vq_model.specs.LoweredPlans.{IsPlan};
ghost use Rattle.vq_turns.specs.declared.outcome.Outcome.{Outcome as AnyOutcome};
ghost use Rattle.vq_turns.specs.Programs.{program};
ghost use Rattle.vq_turns.specs.Turns.{first_place};
ghost use Rattle.vq_actor.specs.Actors.{IsServed, IsTurn, acting_of};
ghost use Rattle.vq_actor.specs.Trackers.{FitsIn};

use crate::access::Access;
use crate::play::play;
use crate::programs::{host_program, ring_program, submit_program};
use crate::tracker::Tracker;
use std::alloc::{AllocError, Global};
use std::marker::Model;
use vq_model::script::ActorName;
use vq_order::Ordered;
use vq_spec::Plan;
use vq_turns::outcome::Outcome;
use vq_turns::task::Task;

/// An actor of a plan: its name, and the tasks of its program. The host submits batches, releases those of
/// immediate queues, and does the host's steps. The submit actor of a queue gives the signals of each batch their
/// points, releases the batch once what it waits for is pending, and binds its signals. The ring of a queue waits
/// for each released batch's needs, applies the batch's commands and makes its signals. How far an actor is,
/// the access keeps that serves it.
pub struct Actor {
    name: ActorName,
    tasks: Vec<Task>,
}

impl Drop for Actor {
    fn drop(self) {
        let Actor {
            name: _name,
            tasks: _tasks,
        } = self;
    }
}

impl Model for Actor {
    ghost use Rattle.vq_actor.specs.Actors.{Acting};

    ghost Value = { Acting };

    ghost view = { λ a. record { name = a.name; tasks = a.tasks.items } };
}

impl Actor {
    /// The actor of a plan with this name. It takes the memory for all its turns; the error is that there is none.
    pub fn new(alloc: Global, ordered: &Ordered, name: ActorName) -> Result<Actor, AllocError>
        ensures { IfOk result (λ a. a ≡ acting_of ordered.now name) }
    {
        let tasks = tasks_of(alloc, ordered.plan(), name)?;
        Ok(Actor { name, tasks })
    }

    /// Who it is.
    pub fn name(&self) -> ActorName
        ensures { result ≡ self.now.name }
    {
        self.name
    }

    /// The first place of this actor's program, with room for all its places, for an access that serves the
    /// actor. The error is that there is no memory.
    pub fn tracker(&self, alloc: Global) -> Result<Tracker, AllocError>
        ensures place { IfOk result (λ t. t.place ≡ first_place) }
        ensures fits { IfOk result (λ t. FitsIn self.now.tasks t) }
    {
        Tracker::at_first(alloc, self.tasks.as_slice())
    }

    /// One turn over an access that serves this actor. It does the tasks that are left until one makes an
    /// event or is blocked. Where the access tells the state, the outcome is the one that the definition of
    /// turns names; what it came to, an event or a want, is shown by the access since the turn's start. `Ended`
    /// says that no task is left, and then nothing was asked of the access.
    pub fn turn<A: Access>(&self, access: &mut A) -> Outcome
        requires { IsServed self.now (A.meaning access.old) }
        ensures turn { IsTurn (A.meaning access.old) (A.meaning access.new) (A.shows access.new) result }
        ensures served { IsServed self.now (A.meaning access.new) }
        ensures untouched { result ≡ AnyOutcome.Ended → access.new ≡ access.old }
    {
        let _lawful = access.ordered().plan();
        play(access, self.name, self.tasks.as_slice())
    }
}

/// The tasks of a plan's actor.
fn tasks_of(alloc: Global, plan: &Plan, name: ActorName) -> Result<Vec<Task>, AllocError>
    requires { IsPlan plan.now }
    ensures { IfOk result (λ tasks. tasks.items ≡ program plan.now name) }
{
    match name {
        ActorName::Host => host_program(alloc, plan),
        ActorName::Submit(queue) => submit_program(alloc, plan, queue),
        ActorName::Ring(queue) => ring_program(alloc, plan, queue),
    }
}
