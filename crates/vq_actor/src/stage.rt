//! What the turns of several actors go over.
//!
//! Source: this project's own, where an item names no other.
ghost use Rattle.std.specs.Prelude.{◌≡◌, ℕ};
ghost use Rattle.vq_model.specs.declared.script.ActorName.{ActorName};
ghost use Rattle.vq_turns.specs.declared.outcome.Outcome.{Outcome as AnyOutcome};
ghost use Rattle.vq_turns.specs.declared.outcome.Want.{Want};
ghost use Rattle.vq_actor.specs.Actors.{IsTurn, acting_of};
ghost use Rattle.vq_actor.specs.Stages.{Staged, part};

use crate::actor::Actor;
use vq_order::Ordered;
use vq_turns::outcome::Outcome;

/// What the turns of several actors go over: it keeps the place of each, and lends an access for one turn of one
/// of them. A turn of one actor leaves the places of the others as they are.
pub trait Stage {
    /// The plan, the place of each actor, the state where it is told, the events that are noted and those of them
    /// that were made, and how far the record goes.
    ghost staged: { Self → Staged };

    /// Whether it keeps the place of an actor.
    ghost has: { Self → ActorName → Type 0 };

    /// Whether its record shows what a turn came to, an event or a want, since an earlier moment of the record.
    ghost shows: { Self → AnyOutcome → ℕ × ℕ → Type 0 };

    /// The plan that is run.
    fn ordered(&self) -> &Ordered
        ensures { result.now ≡ (staged self.now).plan };

    /// One turn of an actor, over an access that is lent for it.
    fn turn(&mut self, actor: &Actor) -> Outcome
        requires has { has self.old actor.now.name }
        requires own { actor.now ≡ acting_of (staged self.old).plan actor.now.name }
        ensures turn { IsTurn (part (staged self.old) actor.now.name) (part (staged self.new) actor.now.name)
            (shows self.new) result }
        ensures others { (a : ActorName) → (a ≡ actor.now.name → ⊥) →
            (staged self.new).places a ≡ (staged self.old).places a }
        ensures still_has { (a : ActorName) → has self.old a → has self.new a }
        ensures still_shows { result ≡ AnyOutcome.Ended → (want : Want) → (since : ℕ × ℕ) →
            shows self.old (AnyOutcome.Blocked want) since → shows self.new (AnyOutcome.Blocked want) since };
}
