//! Makers of the three kinds of actors.
//!
//! Source: this project's own, where an item names no other.
ghost use Rattle.std.specs.Prelude.{◌≡◌, IfOk};
ghost use Rattle.vq_model.specs.declared.script.ActorName.{ActorName as Name};
ghost use Rattle.vq_actor.specs.Actors.{acting_of};

use crate::actor::Actor;
use std::alloc::{AllocError, Global};
use vq_model::script::ActorName;
use vq_order::Ordered;

/// Makes the host of a plan.
#[derive(Clone, Copy)]
pub struct HostActor;

impl HostActor {
    /// The host. The error is that there is no memory.
    pub fn new(alloc: Global, ordered: &Ordered) -> Result<Actor, AllocError>
        ensures { IfOk result (λ a. a ≡ acting_of ordered.now Name.Host) }
    {
        Actor::new(alloc, ordered, ActorName::Host)
    }
}

/// Makes the submit actors of a plan's queues.
#[derive(Clone, Copy)]
pub struct SubmitActor;

impl SubmitActor {
    /// The submit actor of a queue. The error is that there is no memory.
    pub fn new(alloc: Global, ordered: &Ordered, queue: u32) -> Result<Actor, AllocError>
        ensures { IfOk result (λ a. a ≡ acting_of ordered.now (Name.Submit queue)) }
    {
        Actor::new(alloc, ordered, ActorName::Submit(queue))
    }
}

/// Makes the rings of a plan's queues.
#[derive(Clone, Copy)]
pub struct RingActor;

impl RingActor {
    /// The ring of a queue. The error is that there is no memory.
    pub fn new(alloc: Global, ordered: &Ordered, queue: u32) -> Result<Actor, AllocError>
        ensures { IfOk result (λ a. a ≡ acting_of ordered.now (Name.Ring queue)) }
    {
        Actor::new(alloc, ordered, ActorName::Ring(queue))
    }
}
