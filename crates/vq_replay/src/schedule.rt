//! A schedule, turn by turn.
//!
//! Source: this project's own, where an item names no other.
ghost use Rattle.std.specs.Prelude.{◌≡◌, ◌<◌, ◌^◌, All, IfOk, length};
ghost use Rattle.vq_model.specs.ValidScripts.{IsActor};
ghost use Rattle.vq_replay.specs.Schedules.{AreBlockedSo};
ghost use Rattle.vq_replay.specs.Traces.{events_of, played_turns};

use crate::played::Played;
use std::alloc::{AllocError, Global};
use vq_core::Core;
use vq_core_run::Troupe;
use vq_model::script::Turn;
use vq_order::Ordered;

/// What a schedule came to, or rounds: its turns, of rounds those that moved, and the core after them.
pub struct Replayed {
    pub played: Vec<Played>,
    pub core: Core,
}

impl Drop for Replayed {
    fn drop(self) {
        let Replayed {
            played: _played,
            core: _core,
        } = self;
    }
}

/// Plays the turns of a schedule, in order and numbered from 1, over a new core. Where a turn is blocked, the thing
/// that its want names isn't so in the state that the turns before it leave. The error is that there is no memory.
pub fn replay(alloc: Global, ordered: Ordered, turns: &[Turn]) -> Result<Replayed, AllocError>
    requires few { length turns.now < 2 ^ 32 }
    requires actors { All (λ t. IsActor ordered.script t.actor) turns.now }
    ensures played { IfOk result (λ r. r.played.items ≡ played_turns ordered turns.now) }
    ensures core { IfOk result (λ r. r.core
        ≡ record { plan = ordered; history = events_of (played_turns ordered turns.now) }) }
    ensures blocked { IfOk result (λ r. AreBlockedSo ordered r.played.items) }
{
    let mut troupe = Troupe::new(alloc, ordered)?;
    let mut played = Vec::new(alloc);
    for turn in 0..turns.len() {
        let actor = turns[turn].actor;
        let outcome = troupe.play(actor);
        played.push(Played {
            number: turn as u32 + 1,
            actor,
            outcome,
        })?;
    }
    let core = troupe.into_core();
    Ok(Replayed { played, core })
}
