//! What is known of turns that are still to come: those that change nothing needn't be played.
//!
//! Source: this project's own.
ghost use Rattle.std.specs.Prelude.{◌≡◌, ◌<◌, true, false, length, replicate, IfOk};
ghost use Rattle.std.specs.List.{slice_index_or};
ghost use Rattle.std.proofs.Math.ListN.{set};
ghost use Rattle.vq_core.specs.CoreState.{world};
ghost use Rattle.vq_turns.specs.Turns.{Scene};
ghost use Rattle.vq_model.specs.declared.script.ActorName.{ActorName as Name};
ghost use Rattle.vq_replay.specs.declared.rests.Rest.TheVariants.{Unknown};
ghost use Rattle.vq_replay.specs.Resting.{ChangesNothing, IsIdleIn, Knows};
ghost use Rattle.vq_replay.specs.Resting.{host_rest, rest_after, rest_of, rest_until};

use std::alloc::{AllocError, Global};
use std::marker::Model;
use vq_core::Core;
use vq_model::script::ActorName;
use vq_turns::outcome::{Outcome, Want};

/// What is known of an actor's next turn.
#[derive(Clone, Copy)]
pub(crate) enum Rest {
    /// Nothing.
    Unknown,
    /// It changes nothing.
    Over,
    /// It changes nothing until this batch is submitted.
    Unsubmitted { job: u32 },
    /// It changes nothing until this batch is released.
    Unreleased { job: u32 },
    /// It changes nothing until this operation is bound.
    Unbound { op: u32 },
    /// It changes nothing until this operation is signaled.
    Unsignaled { op: u32 },
    /// It changes nothing until this job is finished.
    Unfinished { job: u32 },
}

/// What is known of the next turn of each actor of a round, by the actor's place in the round.
#[derive(Drop)]
pub(crate) struct Rests {
    items: Vec<Rest>,
}

impl Model for Rests {
    ghost use Rattle.std.specs.Prelude.{List};
    ghost use Rattle.vq_replay.specs.declared.rests.Rest.{Rest as AnyRest};

    ghost Value = { List AnyRest };

    ghost view = { λ a. a.items.items };
}

impl Rests {
    /// Nothing is known of so many actors. The error is that there is no memory.
    pub(crate) fn new(alloc: Global, actors: usize) -> Result<Rests, AllocError>
        ensures { IfOk result (λ rests. rests ≡ replicate actors Unknown) }
    {
        let items = vec![in alloc; Rest::Unknown; actors]?;
        Ok(Rests { items })
    }

    /// Whether the next turn of the actor at a place is known to change nothing.
    #[inline(always)]
    pub(crate) fn is_idle(&self, core: &Core, place: usize) -> bool
        requires { place < length self.now }
        ensures { result ≡ true → (s : Scene) → s.world ≡ world core.now → (a : Name) →
            Knows core.now.plan s a (slice_index_or self.now place Unknown) → ChangesNothing core.now.plan s a }
    {
        is_still(core, self.items[place])
    }

    /// Keeps what a turn of the actor at a place tells of its next one.
    #[inline(always)]
    pub(crate) fn note(&mut self, place: usize, actor: ActorName, outcome: Outcome)
        requires { place < length self.old }
        ensures { self.new ≡ set self.old place (rest_after actor outcome) }
    {
        self.items[place] = rest_after(actor, outcome);
    }
}

/// What is known of the turns of an actor that waits for this.
#[inline(always)]
fn rest_until(want: Want) -> Rest
    ensures { result ≡ rest_until want }
{
    match want {
        Want::Submitted { job } => Rest::Unsubmitted { job },
        Want::Released { job } => Rest::Unreleased { job },
        Want::Bound { op } => Rest::Unbound { op },
        Want::Next { op } => Rest::Unbound { op },
        Want::Signaled { op } => Rest::Unsignaled { op },
        Want::Finished { job } => Rest::Unfinished { job },
        Want::MemoryTurn => Rest::Unknown,
        Want::Exchange { .. } => Rest::Unknown,
        Want::Listed { .. } => Rest::Unknown,
    }
}

/// What a turn of a submit actor or of a ring tells of its next one.
#[inline(always)]
fn rest_of(outcome: Outcome) -> Rest
    ensures { result ≡ rest_of outcome }
{
    match outcome {
        Outcome::Moved(_) => Rest::Unknown,
        Outcome::Blocked(want) => rest_until(want),
        Outcome::Ended => Rest::Over,
    }
}

/// What a turn of the host tells of its next one: where it is blocked, it may serve another queue.
#[inline(always)]
fn host_rest(outcome: Outcome) -> Rest
    ensures { result ≡ host_rest outcome }
{
    match outcome {
        Outcome::Moved(_) => Rest::Unknown,
        Outcome::Blocked(_) => Rest::Unknown,
        Outcome::Ended => Rest::Over,
    }
}

/// What a turn of an actor tells of its next one.
#[inline(always)]
fn rest_after(actor: ActorName, outcome: Outcome) -> Rest
    ensures { result ≡ rest_after actor outcome }
{
    match actor {
        ActorName::Host => host_rest(outcome),
        ActorName::Submit(_) => rest_of(outcome),
        ActorName::Ring(_) => rest_of(outcome),
    }
}

/// Whether an operation may be bound.
#[inline(always)]
fn is_bound(core: &Core, op: u32) -> bool
    ensures { result ≡ false → (world core.now).bound op ≡ false }
{
    if op >= core.ordered().plan().ops() {
        return true;
    }
    core.is_bound(op)
}

/// Whether a turn of which so much is known changes nothing, where a core stands now.
#[inline(always)]
fn is_still(core: &Core, rest: Rest) -> bool
    ensures { result ≡ true → (s : Scene) → (a : Name) → Knows core.now.plan s a rest →
        IsIdleIn core.now.plan s a (world core.now) }
{
    let _lawful = core.ordered();
    match rest {
        Rest::Unknown => false,
        Rest::Over => true,
        Rest::Unsubmitted { job } => !core.is_submitted(job),
        Rest::Unreleased { job } => !core.is_released(job),
        Rest::Unbound { op } => !is_bound(core, op),
        Rest::Unsignaled { op } => !core.is_signaled(op),
        Rest::Unfinished { job } => !core.is_finished(job),
    }
}
