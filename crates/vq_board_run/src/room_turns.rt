//! One turn of an actor in a room.
//!
//! Source: this project's own.
ghost use Rattle.std.specs.Prelude.{◌≡◌, true};
ghost use Rattle.vq_access.specs.Grounding.{plan_at, board_at};
ghost use Rattle.vq_access.specs.Seatings.{places_of};
ghost use Rattle.vq_access.specs.Served.{is_served};
ghost use Rattle.vq_actor.specs.Actors.{IsTurn, acting_of};
ghost use Rattle.vq_board.specs.Named.{view};
ghost use Rattle.vq_model.specs.declared.script.ActorName.{ActorName as Name};
ghost use Rattle.vq_board_run.specs.Rooming.{IsRoomOf, lent_by, served_queue, shown_by};
ghost use Rattle.vq_turns.specs.declared.outcome.Outcome.{Outcome as AnyOutcome};

use crate::content::RoomContent;
use crate::room::AccessRoom;
use std::snapshot::Snapshot;
use vq_access::{Grounds, Lists, turn_at};
use vq_actor::Actor;
use vq_model::script::ActorName;
use vq_turns::outcome::Outcome;

/// The queue whose submit actor the host serves, where it is that.
fn served_queue(owner: ActorName, name: ActorName) -> Option<u32>
    ensures { result ≡ served_queue owner name }
{
    match owner {
        ActorName::Host => match name {
            ActorName::Submit(queue) => Some(queue),
            ActorName::Host | ActorName::Ring(_) => None,
        },
        ActorName::Submit(_) | ActorName::Ring(_) => None,
    }
}

impl RoomContent {
    /// One turn of an actor that the room serves.
    pub(crate) fn turn<L: Lists>(&mut self, grounds: &Grounds<L>, actor: &Actor) -> Outcome
        requires board { IsRoomOf (board_at grounds.now) self.old }
        requires own { actor.now ≡ acting_of (plan_at grounds.now) actor.now.name }
        requires serves { is_served (plan_at grounds.now) self.old.owner actor.now.name ≡ true }
        ensures board { IsRoomOf (board_at grounds.now) self.new }
        ensures owner { self.new.owner ≡ self.old.owner }
        ensures turn { IsTurn (lent_by (plan_at grounds.now) self.old actor.now.name)
            (lent_by (plan_at grounds.now) self.new actor.now.name) (shown_by self.new) result }
        ensures others { (a : Name) → (a ≡ actor.now.name → ⊥) →
            places_of self.new.owner self.new.seats a ≡ places_of self.old.owner self.old.seats a }
        ensures untouched { result ≡ AnyOutcome.Ended →
            ((view self.new.pass) ≡ (view self.old.pass)) × (self.new.refused ≡ self.old.refused) }
    {
        let seats = Snapshot::of(&self.seats);
        match served_queue(self.owner, actor.name()) {
            Some(queue) => turn_at(
                grounds,
                &mut self.pass,
                &mut self.seats.submits[queue as usize],
                &mut self.refused,
                self.owner,
                seats,
                actor,
            ),
            None => turn_at(
                grounds,
                &mut self.pass,
                &mut self.seats.own,
                &mut self.refused,
                self.owner,
                seats,
                actor,
            ),
        }
    }
}

impl AccessRoom {
    /// One turn of an actor that the room serves.
    pub(crate) fn turn<L: Lists>(&mut self, grounds: &Grounds<L>, actor: &Actor) -> Outcome
        requires board { IsRoomOf (board_at grounds.now) self.old }
        requires own { actor.now ≡ acting_of (plan_at grounds.now) actor.now.name }
        requires serves { is_served (plan_at grounds.now) self.old.owner actor.now.name ≡ true }
        ensures board { IsRoomOf (board_at grounds.now) self.new }
        ensures owner { self.new.owner ≡ self.old.owner }
        ensures turn { IsTurn (lent_by (plan_at grounds.now) self.old actor.now.name)
            (lent_by (plan_at grounds.now) self.new actor.now.name) (shown_by self.new) result }
        ensures others { (a : Name) → (a ≡ actor.now.name → ⊥) →
            places_of self.new.owner self.new.seats a ≡ places_of self.old.owner self.old.seats a }
        ensures untouched { result ≡ AnyOutcome.Ended →
            ((view self.new.pass) ≡ (view self.old.pass)) × (self.new.refused ≡ self.old.refused) }
    {
        self.content.turn(grounds, actor)
    }
}
