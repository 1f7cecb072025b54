//! A core with the place of each actor.
ghost use Rattle.std.specs.Prelude.{◌≡◌, [], None, IfOk, length};
ghost use Rattle.std.specs.List.{slice_get};
ghost use Rattle.vq_turns.specs.declared.outcome.Outcome.{Outcome as AnyOutcome};
ghost use Rattle.vq_turns.specs.declared.outcome.Want.{Want};
ghost use Rattle.vq_turns.specs.Programs.{program};
ghost use Rattle.vq_turns.specs.Turns.{turn_of};
ghost use Rattle.vq_turns.specs.Wants.{IsNotSo};
ghost use Rattle.vq_core.specs.CoreState.{world};
ghost use Rattle.vq_actor.specs.Actors.{acting_of};
ghost use Rattle.vq_actor.specs.Companies.{IsCompanyOf};
ghost use Rattle.vq_core_run.specs.Casts.{AreFirst, course_after, first_places, places};
ghost use Rattle.vq_core_run.specs.Seats.{IsSeated};

use crate::core_access::CoreAccess;
use crate::looks::keeps;
use std::alloc::{AllocError, Global};
use std::marker::Model;
use vq_actor::{Actor, Company, Stage, Tracker};
use vq_core::Core;
use vq_model::script::ActorName;
use vq_order::Ordered;
use vq_turns::outcome::Outcome;

/// A core, and the place of the host, and of the submit actor and the ring of each queue. All places are true of
/// the core: what an actor has done stands in the core's history.
pub(crate) struct CoreStage {
    core: Core,
    host: Tracker,
    submits: Vec<Tracker>,
    rings: Vec<Tracker>,
}

impl Drop for CoreStage {
    fn drop(self) {
        let CoreStage {
            core: _core,
            host: _host,
            submits: _submits,
            rings: _rings,
        } = self;
    }
}

impl Model for CoreStage {
    ghost use Rattle.vq_core_run.specs.Casts.{AreSeated, Cast, cast};

    ghost Value = { Cast };

    ghost view = { λ a. cast a.core a.host a.submits.items a.rings.items };

    ghost invariant = { λ a. AreSeated a.core a.host a.submits.items a.rings.items };
}

impl CoreStage {
    /// A core without events, and the actors of its plan at their first places.
    pub(crate) fn new(
        alloc: Global,
        ordered: Ordered,
        company: &Company,
    ) -> Result<CoreStage, AllocError>
        requires { IsCompanyOf ordered company.now }
        ensures course { IfOk result (λ x. x.course ≡ record { plan = ordered; history = [] }) }
        ensures first { IfOk result (λ x. places x ≡ first_places) }
    {
        let host = company.host().tracker(alloc)?;
        let submits = seats_of(alloc, company.submits())?;
        let rings = seats_of(alloc, company.rings())?;
        let core = Core::new(alloc, ordered)?;
        Ok(CoreStage {
            core,
            host,
            submits,
            rings,
        })
    }

    /// The core, as the turns so far left it.
    pub(crate) fn core(&self) -> &Core
        ensures { result.now ≡ self.now.course }
    {
        &self.core
    }

    /// The core after the turns, without the places.
    pub(crate) fn into_core(self) -> Core
        ensures { result ≡ self.course }
    {
        let CoreStage {
            core,
            host: _host,
            submits: _submits,
            rings: _rings,
        } = self;
        core
    }
}

impl Stage for CoreStage {
    ghost use Rattle.vq_core_run.specs.Casts.{HasActor, staged_of};
    ghost use Rattle.vq_core_run.specs.CoreAccesses.{shown_by};

    ghost staged = { λ x. staged_of x };

    ghost has = { λ x. HasActor x.course.plan };

    ghost shows = { λ x. shown_by x.course };

    fn ordered(&self) -> &Ordered {
        self.core.ordered()
    }

    fn turn(&mut self, actor: &Actor) -> Outcome {
        keeps(&self.core);
        match actor.name() {
            ActorName::Host => turn_at(&mut self.core, &mut self.host, actor),
            ActorName::Submit(queue) => {
                turn_at(&mut self.core, &mut self.submits[queue as usize], actor)
            }
            ActorName::Ring(queue) => {
                turn_at(&mut self.core, &mut self.rings[queue as usize], actor)
            }
        }
    }
}

/// One turn of an actor over a core, from its place.
fn turn_at(core: &mut Core, seat: &mut Tracker, actor: &Actor) -> Outcome
    requires own { actor.now ≡ acting_of core.old.plan actor.now.name }
    requires seated { IsSeated core.old actor.now.name seat.old }
    ensures turned { record { outcome = result; place = seat.new.place }
        ≡ turn_of core.old.plan (world core.old) actor.now.name seat.old.place }
    ensures course { core.new ≡ course_after core.old result }
    ensures seated { IsSeated core.new actor.now.name seat.new }
    ensures shown { (want : Want) → result ≡ AnyOutcome.Blocked want → IsNotSo (world core.old) want }
    ensures ended { result ≡ AnyOutcome.Ended →
        slice_get (program core.new.plan actor.now.name) seat.new.place.done ≡ None }
{
    let mut access = CoreAccess::new(core, seat, actor.name());
    actor.turn(&mut access)
}

/// The first place of each of these actors.
fn seats_of(alloc: Global, actors: &[Actor]) -> Result<Vec<Tracker>, AllocError>
    ensures { IfOk result (λ seats. AreFirst actors.now (length actors.now) seats.items) }
{
    let mut seats = Vec::new(alloc);
    for actor in actors {
        seats.push(actor.tracker(alloc)?)?;
    }
    Ok(seats)
}
