//! The references that actors hold.
ghost use Rattle.std.specs.Prelude.{◌≡◌, ◌<◌, ◌↔◌, IsTrue, length, false};
ghost use Rattle.std.specs.List.{list_any};
ghost use Rattle.vq_model.specs.Naming.{same_actor};
ghost use Rattle.vq_model.specs.Plan.{of_job};
ghost use Rattle.vq_point_laws.specs.Points.{actor_of_lane, holds, needs_resolved};
ghost use Rattle.vq_core.specs.CoreState.{world};
ghost use Rattle.vq_tables.specs.Notes.{IsNote};

use crate::state::Core;
use vq_model::script::ActorName;
use vq_tables::Note;

impl Core {
    /// The note on the references to an operation's point that were made for a job which needs it.
    pub(crate) fn note(&self, job: u32, op: u32) -> Note
        requires { job < length self.now.plan.jobs }
        ensures { 0 < needs_resolved self.now.plan job op →
            IsNote self.now.plan (world self.now).machine.progress.finished (world self.now).held
            (world self.now).referred (world self.now).looked job op result }
    {
        let place = self.place_of_need(job, op);
        self.notes.at(job, place)
    }

    /// Whether an actor holds a reference to a point that carries an operation.
    pub(crate) fn holds(&self, actor: ActorName, point: u32, op: u32) -> bool
        ensures { result ≡ holds (world self.now) actor point op }
    {
        let Some(job) = self.next_job(actor) else {
            return false;
        };
        if !self.carries(point, op) {
            return false;
        }
        if self.needs_resolved(job, op) == 0 {
            return false;
        }
        self.note(job, op).held > 0
    }

    /// Whether the actor of a job's lane holds no reference.
    pub(crate) fn holds_none(&self, job: u32) -> bool
        requires { job < length self.now.plan.jobs }
        ensures { IsTrue result ↔ (list_any (λ r. of_job (λ x. same_actor (actor_of_lane x.lane) r.actor)
            false self.now.plan job) (world self.now).held ≡ false) }
    {
        let lane = self.plan().job(job).lane.number();
        self.lanes.held(lane) == 0
    }
}
