//! All actors of a plan.
//!
//! Source: this project's own, where an item names no other.
ghost use Rattle.std.specs.Prelude.{◌≡◌, ◌<◌, IfOk, length};
ghost use Rattle.vq_model.specs.ValidScripts.{IsActor};
ghost use Rattle.vq_model.specs.declared.script.ActorName.{ActorName as Name};
ghost use Rattle.vq_actor.specs.Actors.{acting_of};
ghost use Rattle.vq_actor.specs.Companies.{AreOf, IsCompanyOf, HasServed};
ghost use Rattle.vq_actor.specs.Stages.{IsPlay};

use crate::actor::Actor;
use crate::stage::Stage;
use std::alloc::{AllocError, Global};
use std::marker::Model;
use vq_model::script::ActorName;
use vq_order::Ordered;
use vq_turns::outcome::Outcome;

/// The host, and the submit actor and the ring of each queue. They don't change: how far each is, the stage
/// keeps.
pub struct Company {
    host: Actor,
    submits: Vec<Actor>,
    rings: Vec<Actor>,
}

impl Drop for Company {
    fn drop(self) {
        let Company {
            host: _host,
            submits: _submits,
            rings: _rings,
        } = self;
    }
}

impl Model for Company {
    ghost use Rattle.vq_actor.specs.Companies.{Members};

    ghost Value = { Members };

    ghost view = { λ a. record { host = a.host; submits = a.submits.items; rings = a.rings.items } };
}

impl Company {
    /// The actors of a plan. It takes the memory for all their turns; the error is that there is none.
    pub fn new(alloc: Global, ordered: &Ordered) -> Result<Company, AllocError>
        ensures { IfOk result (λ c. IsCompanyOf ordered.now c) }
    {
        let host = Actor::new(alloc, ordered, ActorName::Host)?;
        let submits = submits_of(alloc, ordered)?;
        let rings = rings_of(alloc, ordered)?;
        Ok(Company {
            host,
            submits,
            rings,
        })
    }

    /// The host.
    pub fn host(&self) -> &Actor
        ensures { result.now ≡ self.now.host }
    {
        &self.host
    }

    /// The submit actor of each queue, by queue.
    pub fn submits(&self) -> &[Actor]
        ensures { result.now ≡ self.now.submits }
    {
        self.submits.as_slice()
    }

    /// The ring of each queue, by queue.
    pub fn rings(&self) -> &[Actor]
        ensures { result.now ≡ self.now.rings }
    {
        self.rings.as_slice()
    }

    /// A turn of an actor: the event that it made, or why it made none. The host serves the submit actors of
    /// deferred queues, in the order of the queues, before it goes on with its own program; at the end of that it
    /// is blocked as the last of them is. Where the stage tells the state, the outcome is the one that the
    /// definition of turns names; what it came to, an event or a want, is shown by the stage since the turn's
    /// start. `Ended` says that nothing is left to do, of the actor and of those that it serves.
    pub fn turn<S: Stage>(&self, stage: &mut S, actor: ActorName) -> Outcome
        requires company { IsCompanyOf (S.staged stage.old).plan self.now }
        requires actor { IsActor (S.staged stage.old).plan.script actor }
        requires served { HasServed (S.has stage.old) (S.staged stage.old).plan actor }
        ensures play { IsPlay (S.staged stage.old) (S.staged stage.new) (S.shows stage.new) actor result }
        ensures still_has { (a : Name) → S.has stage.old a → S.has stage.new a }
    {
        match actor {
            ActorName::Host => host_turn(stage, &self.host, self.submits.as_slice()),
            ActorName::Submit(queue) => stage.turn(&self.submits[queue as usize]),
            ActorName::Ring(queue) => stage.turn(&self.rings[queue as usize]),
        }
    }
}

/// How many queues a plan has.
pub fn queue_count(ordered: &Ordered) -> u32
    ensures { result ≡ length ordered.now.script.queues }
{
    ordered.plan().script().queues.as_slice().len() as u32
}

/// The submit actor of each queue.
fn submits_of(alloc: Global, ordered: &Ordered) -> Result<Vec<Actor>, AllocError>
    ensures { IfOk result (λ xs. AreOf ordered.now Name.Submit (length ordered.now.script.queues) xs.items) }
{
    let mut actors = Vec::new(alloc);
    for queue in 0..queue_count(ordered) {
        actors.push(Actor::new(alloc, ordered, ActorName::Submit(queue))?)?;
    }
    Ok(actors)
}

/// The ring of each queue.
fn rings_of(alloc: Global, ordered: &Ordered) -> Result<Vec<Actor>, AllocError>
    ensures { IfOk result (λ xs. AreOf ordered.now Name.Ring (length ordered.now.script.queues) xs.items) }
{
    let mut actors = Vec::new(alloc);
    for queue in 0..queue_count(ordered) {
        actors.push(Actor::new(alloc, ordered, ActorName::Ring(queue))?)?;
    }
    Ok(actors)
}

/// A turn of the host: the submit actors of deferred queues come first, in the order of the queues, and then its
/// own program, at whose end it is blocked as the last of them is.
fn host_turn<S: Stage>(stage: &mut S, host: &Actor, submits: &[Actor]) -> Outcome
    requires host { host.now ≡ acting_of (S.staged stage.old).plan Name.Host }
    requires submits { AreOf (S.staged stage.old).plan Name.Submit
        (length (S.staged stage.old).plan.script.queues) submits.now }
    requires served { HasServed (S.has stage.old) (S.staged stage.old).plan Name.Host }
    ensures play { IsPlay (S.staged stage.old) (S.staged stage.new) (S.shows stage.new) Name.Host result }
    ensures still_has { (a : Name) → S.has stage.old a → S.has stage.new a }
{
    let mut last = Outcome::Ended;
    for queue in 0..queue_count(stage.ordered()) {
        if !stage.ordered().plan().script().is_deferred(queue) {
            continue;
        }
        match stage.turn(&submits[queue as usize]) {
            Outcome::Moved(event) => return Outcome::Moved(event),
            Outcome::Blocked(want) => last = Outcome::Blocked(want),
            Outcome::Ended => {}
        }
    }
    match stage.turn(host) {
        Outcome::Ended => last,
        other => other,
    }
}
