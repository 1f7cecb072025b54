//! Rounds over a core, one after another.
//!
//! Source: this project's own.
ghost use Rattle.std.specs.Prelude.{◌≡◌, ◌<◌, ◌+◌, ◌^◌, ◌++◌, ◌∷◌, [], All, IfOk, List, OnOk, filter, length};
ghost use Rattle.vq_model.specs.Machine.{AreFinished};
ghost use Rattle.vq_model.specs.ValidScripts.{IsActor};
ghost use Rattle.vq_core.specs.CoreState.{world};
ghost use Rattle.vq_core_run.specs.Casts.{scene};
ghost use Rattle.vq_replay.specs.declared.played.Played.{Played as Turn};
ghost use Rattle.vq_replay.specs.Passages.{AreUnderWay, LeadsTo};
ghost use Rattle.vq_replay.specs.Resting.{AreApart, AreKnown};
ghost use Rattle.vq_replay.specs.Rounds.{has_moved, moved_turns};

use crate::played::Played;
use crate::rests::Rests;
use crate::roster::roster;
use std::alloc::{AllocError, Global};
use vq_core::Core;
use vq_core_run::Troupe;
use vq_model::script::ActorName;
use vq_order::Ordered;
use vq_turns::outcome::Outcome;

/// Rounds over a core from its first state on, as far as they have come: in each, every actor has a turn.
pub(crate) struct FairPlay {
    /// The actors of a round, in the order of their turns.
    round: Vec<ActorName>,
    troupe: Troupe,
    rests: Rests,
    /// How many rounds were played.
    rounds: u32,
    /// How many turns these had.
    turns: u32,
}

impl Drop for FairPlay {
    fn drop(self) {
        let FairPlay {
            round: _round,
            troupe: _troupe,
            rests: _rests,
            rounds: _rounds,
            turns: _turns,
        } = self;
    }
}

impl FairPlay {
    /// No round was played over a new core of a plan. The error is that there is no memory.
    pub(crate) fn new(alloc: Global, ordered: Ordered) -> Result<FairPlay, AllocError>
        ensures plan { IfOk result (λ f. f.troupe.course.plan ≡ ordered) }
        ensures under_way { IfOk result (λ f.
            AreUnderWay f.troupe.course.plan f.rounds f.turns f.troupe f.rests f.round.items) }
        ensures rounds { IfOk result (λ f. f.rounds ≡ 0) }
    {
        let round = roster(alloc, &ordered)?;
        let rests = Rests::new(alloc, round.len())?;
        let troupe = Troupe::new(alloc, ordered)?;
        Ok(FairPlay {
            round,
            troupe,
            rests,
            rounds: 0,
            turns: 0,
        })
    }

    /// The core, as the rounds so far left it.
    pub(crate) fn core(&self) -> &Core
        ensures { result.now ≡ self.now.troupe.course }
    {
        self.troupe.core()
    }

    /// The core after the rounds, without the actors.
    pub(crate) fn into_core(self) -> Core
        ensures { result ≡ self.troupe.course }
    {
        let FairPlay {
            troupe,
            round: _round,
            rests: _rests,
            rounds: _rounds,
            turns: _turns,
        } = self;
        troupe.into_core()
    }

    /// Plays one round more, where a job is left. The turns that move are kept behind others.
    pub(crate) fn play_round(&mut self, played: &mut Vec<Played>) -> Result<(), AllocError>
        requires under_way { AreUnderWay self.old.troupe.course.plan self.old.rounds self.old.turns self.old.troupe
            self.old.rests self.old.round.items }
        requires left { AreFinished self.old.troupe.course.plan (world self.old.troupe.course).machine.progress → ⊥ }
        ensures plan { OnOk result (self.new.troupe.course.plan ≡ self.old.troupe.course.plan) }
        ensures under_way { OnOk result (AreUnderWay self.new.troupe.course.plan self.new.rounds self.new.turns
            self.new.troupe self.new.rests self.new.round.items) }
        ensures rounds { OnOk result (self.new.rounds ≡ self.old.rounds + 1) }
        ensures played { OnOk result ((before : List Turn) →
            before ++ played.old.items ≡ moved_turns self.old.troupe.course.plan self.old.rounds →
            before ++ played.new.items ≡ moved_turns self.old.troupe.course.plan (self.old.rounds + 1)) }
    {
        let _lawful = self.troupe.core().ordered();
        play_turns(
            &mut self.troupe,
            &mut self.rests,
            played,
            self.round.as_slice(),
            self.turns,
        )?;
        self.rounds += 1;
        self.turns += self.round.len() as u32;
        Ok(())
    }
}

/// Keeps a turn behind others, if it moved.
fn keep_moved(played: &mut Vec<Played>, turn: Played) -> Result<(), AllocError>
    ensures { OnOk result (played.new.items ≡ played.old.items ++ filter has_moved (turn ∷ [])) }
{
    if let Outcome::Moved(_) = turn.outcome {
        played.push(turn)?;
    }
    Ok(())
}

/// Plays a round, behind so many turns: a turn of each of these actors, in their order. The turns that move are kept,
/// and those that are known to change nothing are only counted.
fn play_turns(
    troupe: &mut Troupe,
    rests: &mut Rests,
    played: &mut Vec<Played>,
    round: &[ActorName],
    before: u32,
) -> Result<(), AllocError>
    requires few { before + length round.now < 2 ^ 32 }
    requires actors { All (IsActor troupe.old.course.plan.script) round.now }
    requires apart { AreApart round.now }
    requires known { AreKnown troupe.old.course.plan (scene troupe.old) round.now rests.old }
    ensures turns { OnOk result (LeadsTo troupe.old.course.plan (scene troupe.old) troupe.old.course.history before
        round.now played.old.items troupe.new played.new.items) }
    ensures known { OnOk result (AreKnown troupe.new.course.plan (scene troupe.new) round.now rests.new) }
{
    for turn in 0..round.len() {
        if rests.is_idle(troupe.core(), turn) {
            continue;
        }
        let actor = round[turn];
        let outcome = troupe.play(actor);
        rests.note(turn, actor, outcome);
        let number = before + turn as u32 + 1;
        keep_moved(
            played,
            Played {
                number,
                actor,
                outcome,
            },
        )?;
    }
    Ok(())
}
