//! Which event may come next.
ghost use Rattle.std.specs.Prelude.{◌↔◌, ◌≡◌, ◌<◌, IsTrue, length, true};
ghost use Rattle.vq_model.specs.Machine.{CanAnswer, CanApply};
ghost use Rattle.vq_point_laws.specs.Points.{CanCome, CanSubmit, CanTake, CanRelease, CanBind, CanRefer, CanLook};
ghost use Rattle.vq_point_laws.specs.Points.{CanUnrefer, CanComplete, CanFree, CanStartNow, CanSignalNow};
ghost use Rattle.vq_point_laws.specs.Points.{CanFinishNow};
ghost use Rattle.vq_core.specs.CoreState.{world};
ghost use Rattle.vq_core.specs.GuardParts.{ReleaseTurn, IsPointInTurn, HasCommandsDone, may_take};

use crate::state::Core;
use vq_model::script::ActorName;
use vq_spec::{Answer, Event, Op};

impl Core {
    fn can_submit(&self, job: u32) -> bool
        ensures { IsTrue result ↔ CanSubmit self.now.plan (world self.now) job }
    {
        if !self.is_batch(job) {
            return false;
        }
        if self.is_submitted(job) {
            return false;
        }
        if !self.batches_submitted(job) {
            return false;
        }
        self.steps_finished(job)
    }

    fn can_take(&self, op: u32, point: u32, fresh: bool) -> bool
        ensures { IsTrue result ↔ CanTake self.now.plan (world self.now) op point fresh }
    {
        if op >= self.plan().ops() {
            return false;
        }
        let Op { chain, job, .. } = self.op(op);
        if self.point_of(op).is_some() {
            return false;
        }
        if !self.may_take(job) {
            return false;
        }
        self.is_point_in_turn(chain, point, fresh)
    }

    fn can_release(&self, job: u32) -> bool
        ensures { IsTrue result ↔ CanRelease self.now.plan (world self.now) job }
    {
        if !self.is_batch(job) {
            return false;
        }
        if !self.is_release_turn(job) {
            return false;
        }
        self.signals_taken(job)
    }

    fn can_bind(&self, op: u32, point: u32) -> bool
        ensures { IsTrue result ↔ CanBind self.now.plan (world self.now) op point }
    {
        if op >= self.plan().ops() {
            return false;
        }
        let Op {
            chain,
            job,
            index,
            ..
        } = self.op(op);
        if !self.carries(point, op) {
            return false;
        }
        if !self.may_bind(job) {
            return false;
        }
        index == self.timeline(chain).bound()
    }

    fn can_refer(&self, actor: ActorName, point: u32, op: u32) -> bool
        ensures { IsTrue result ↔ CanRefer self.now.plan (world self.now) actor point op }
    {
        let Some(job) = self.next_job(actor) else {
            return false;
        };
        if !self.carries(point, op) {
            return false;
        }
        if !self.is_bound(op) {
            return false;
        }
        if !self.may_refer(job) {
            return false;
        }
        if !self.is_needed_now(job, op) {
            return false;
        }
        let needed = self.needs_resolved(job, op);
        if needed == 0 {
            return false;
        }
        self.note(job, op).referred < needed
    }

    fn can_look(&self, actor: ActorName, point: u32, op: u32) -> bool
        ensures { IsTrue result ↔ CanLook self.now.plan (world self.now) actor point op }
    {
        let Some(job) = self.next_job(actor) else {
            return false;
        };
        if !self.holds(actor, point, op) {
            return false;
        }
        if !self.is_signaled(op) {
            return false;
        }
        if self.needs_resolved(job, op) == 0 {
            return false;
        }
        let note = self.note(job, op);
        note.looked < note.referred
    }

    fn can_complete(&self, op: u32) -> bool
        ensures { IsTrue result ↔ CanComplete self.now.plan (world self.now) op }
    {
        if op >= self.plan().ops() {
            return false;
        }
        let Op { chain, index, .. } = self.op(op);
        if !self.is_bound(op) {
            return false;
        }
        if !self.is_signaled(op) {
            return false;
        }
        index == self.timeline(chain).completed()
    }

    fn can_free(&self, point: u32) -> bool
        ensures { IsTrue result ↔ CanFree (world self.now) point }
    {
        if !self.waits(point) {
            return false;
        }
        !self.is_referenced(point)
    }

    fn can_start(&self, job: u32) -> bool
        ensures { IsTrue result ↔ CanStartNow self.now.plan (world self.now) job }
    {
        if job >= self.plan().jobs() {
            return false;
        }
        if self.is_started(job) {
            return false;
        }
        if !self.may_start(job) {
            return false;
        }
        if !self.previous_finished(job) {
            return false;
        }
        if !self.idle_finished(job) {
            return false;
        }
        self.is_reached_after(job, 0)
    }

    fn can_apply(&self, job: u32, command: u32) -> bool
        ensures { IsTrue result ↔ CanApply self.now.plan (world self.now).machine.progress job command }
    {
        if job >= self.plan().jobs() {
            return false;
        }
        if !self.is_started(job) {
            return false;
        }
        if self.is_finished(job) {
            return false;
        }
        let Some(next) = self.next_command(job) else {
            return false;
        };
        if next != command {
            return false;
        }
        self.is_reached_after(job, self.job_state(job).commands)
    }

    fn can_signal(&self, op: u32) -> bool
        ensures { IsTrue result ↔ CanSignalNow self.now.plan (world self.now) op }
    {
        if op >= self.plan().ops() {
            return false;
        }
        let Op { job, .. } = self.op(op);
        if !self.is_running(job) {
            return false;
        }
        if !self.is_bound(op) {
            return false;
        }
        match self.next_signal(job) {
            Some(next) => next == op,
            None => false,
        }
    }

    fn can_finish(&self, job: u32) -> bool
        ensures { IsTrue result ↔ CanFinishNow self.now.plan (world self.now) job }
    {
        if job >= self.plan().jobs() {
            return false;
        }
        if !self.is_running(job) {
            return false;
        }
        if !self.signals_done(job) {
            return false;
        }
        if !self.is_settled(job) {
            return false;
        }
        self.holds_none(job)
    }

    fn can_answer(&self, job: u32, answer: Answer) -> bool
        ensures { IsTrue result ↔ CanAnswer self.now.plan (world self.now).machine job answer }
    {
        if job >= self.plan().jobs() {
            return false;
        }
        if !self.is_started(job) {
            return false;
        }
        if self.answer_state(job).answered {
            return false;
        }
        self.may_answer(job, answer)
    }

    /// Whether a point may be taken for a job: a batch's turn has come, or a host step is started.
    fn may_take(&self, job: u32) -> bool
        requires { job < length self.now.plan.jobs }
        ensures { IsTrue result ↔ (may_take self.now.plan (world self.now) job ≡ true) }
    {
        if self.is_host_step(job) {
            return self.is_started(job);
        }
        self.is_release_turn(job)
    }

    /// Whether a batch's turn has come: it is submitted, each earlier batch of its queue is released and
    /// it isn't, and its needs are pending.
    fn is_release_turn(&self, job: u32) -> bool
        requires { job < length self.now.plan.jobs }
        ensures { IsTrue result ↔ ReleaseTurn self.now.plan (world self.now) job }
    {
        if !self.is_submitted(job) {
            return false;
        }
        if !self.is_turn(job) {
            return false;
        }
        self.needs_pending(job)
    }

    /// Whether a point is the one to be taken: a new one exactly where none is free.
    fn is_point_in_turn(&self, chain: u32, point: u32, fresh: bool) -> bool
        requires { chain < length self.now.plan.chains }
        ensures { IsTrue result ↔ IsPointInTurn (world self.now) chain point fresh }
    {
        match self.free_point(chain) {
            Some(free) => !fresh && free == point,
            None => fresh && point == self.points_made(),
        }
    }

    /// Whether a job is started and not finished, its commands are applied and its needs reached.
    fn is_running(&self, job: u32) -> bool
        requires { job < length self.now.plan.jobs }
        ensures { IsTrue result ↔ HasCommandsDone self.now.plan (world self.now) job }
    {
        if !self.is_started(job) {
            return false;
        }
        if self.is_finished(job) {
            return false;
        }
        if !self.commands_done(job) {
            return false;
        }
        self.is_reached_at_end(job)
    }

    /// Whether an event may come next. One that names a job, an operation, a command, a point or an
    /// actor that there isn't may not.
    pub fn can(&self, event: &Event) -> bool
        ensures { IsTrue result ↔ CanCome self.now.plan (world self.now) event.now }
    {
        match *event {
            Event::Submit { job } => self.can_submit(job),
            Event::Take { op, point, fresh } => self.can_take(op, point, fresh),
            Event::Release { job } => self.can_release(job),
            Event::Bind { op, point } => self.can_bind(op, point),
            Event::Refer { actor, point, op } => self.can_refer(actor, point, op),
            Event::Look { actor, point, op } => self.can_look(actor, point, op),
            Event::Unref { actor, point, op } => self.holds(actor, point, op),
            Event::Complete { op } => self.can_complete(op),
            Event::Free { point } => self.can_free(point),
            Event::Start { job } => self.can_start(job),
            Event::Apply { job, command } => self.can_apply(job, command),
            Event::Signal { op } => self.can_signal(op),
            Event::Finish { job } => self.can_finish(job),
            Event::Answer { job, answer } => self.can_answer(job, answer),
        }
    }
}
