//! Turns that were played.
//!
//! Source: this project's own, where an item names no other.
use vq_model::script::ActorName;
use vq_turns::outcome::Outcome;

/// A turn that was played, and what it came to.
#[derive(Clone, Copy)]
pub struct Played {
    /// The number of the turn in its schedule, from 1.
    pub number: u32,
    pub actor: ActorName,
    pub outcome: Outcome,
}
