//! All actors of a plan over one core.
//!
//! Source: this project's own, where an item names no other.
ghost use Rattle.std.specs.Prelude.{◌≡◌, [], IfOk};
ghost use Rattle.vq_model.specs.ValidScripts.{IsActor};
ghost use Rattle.vq_turns.specs.Wants.{IsNotSo};
ghost use Rattle.vq_turns.specs.declared.outcome.Want.{Want};
ghost use Rattle.vq_turns.specs.declared.outcome.Outcome.{Outcome as AnyOutcome};
ghost use Rattle.vq_core.specs.CoreState.{world};
ghost use Rattle.vq_core_run.specs.Casts.{Plays, first_places, places};

use crate::core_stage::CoreStage;
use std::alloc::{AllocError, Global};
use std::marker::Model;
use vq_actor::Company;
use vq_core::Core;
use vq_model::script::ActorName;
use vq_order::Ordered;
use vq_turns::outcome::Outcome;

/// A core with the host, and the submit actor and the ring of each queue, each at its place in its program. All
/// places are true of the core: what an actor has done stands in the core's history.
pub struct Troupe {
    company: Company,
    stage: CoreStage,
}

impl Drop for Troupe {
    fn drop(self) {
        let Troupe {
            company: _company,
            stage: _stage,
        } = self;
    }
}

impl Model for Troupe {
    ghost use Rattle.vq_actor.specs.Companies.{IsCompanyOf};
    ghost use Rattle.vq_core_run.specs.Casts.{Cast};

    ghost Value = { Cast };

    ghost view = { λ a. a.stage };

    ghost invariant = { λ a. IsCompanyOf a.stage.course.plan a.company };
}

impl Troupe {
    /// All actors before their first turns, over a core without events. It takes the memory for all turns; the
    /// error is that there is none.
    pub fn new(alloc: Global, ordered: Ordered) -> Result<Troupe, AllocError>
        ensures course { IfOk result (λ x. x.course ≡ record { plan = ordered; history = [] }) }
        ensures first { IfOk result (λ x. places x ≡ first_places) }
    {
        let company = Company::new(alloc, &ordered)?;
        let stage = CoreStage::new(alloc, ordered, &company)?;
        Ok(Troupe { company, stage })
    }

    /// A turn of an actor of the plan: the event that it made, or why it made none, as the definition of turns
    /// says. It takes no memory. The submit actors of deferred queues have no turns of their own: a turn of the
    /// host serves them, in the order of the queues, before it goes on with the host's own program. Where the turn
    /// is blocked, the thing that its want names isn't so. Where nothing of an actor is left to do, the turn has
    /// ended, and so has each later one.
    pub fn play(&mut self, actor: ActorName) -> Outcome
        requires { IsActor self.old.course.plan.script actor }
        ensures turn { Plays self.old self.new actor result }
        ensures blocked { (want : Want) → result ≡ AnyOutcome.Blocked want → IsNotSo (world self.old.course) want }
    {
        self.company.turn(&mut self.stage, actor)
    }

    /// The core, as the turns so far left it.
    pub fn core(&self) -> &Core
        ensures { result.now ≡ self.now.course }
    {
        self.stage.core()
    }

    /// The core after the turns, without the actors.
    pub fn into_core(self) -> Core
        ensures { result ≡ self.course }
    {
        let Troupe {
            company: _company,
            stage,
        } = self;
        stage.into_core()
    }
}
