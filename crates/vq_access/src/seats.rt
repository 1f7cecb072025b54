//! The places of the actors that one pass serves.
//!
//! Source: this project's own.
use std::marker::Model;
use vq_actor::Tracker;

/// The places of the actors that one pass serves.
#[derive(Drop)]
pub struct Seats {
    /// That of the pass's own actor.
    pub own: Tracker,
    /// For the host that of the submit actor of each queue, by queue.
    pub submits: Vec<Tracker>,
}

impl Model for Seats {
    ghost use Rattle.vq_access.specs.Seatings.{Seating};

    ghost Value = { Seating };

    ghost view = { λ a. record { own = a.own; submits = a.submits.items } };
}
