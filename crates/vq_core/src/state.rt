//! The core: a plan, what has happened, and what that has come to.
//!
//! Source: this project's own, where an item names no other.
ghost use Rattle.std.specs.Prelude.{◌≡◌, ◌<◌, ◌≤◌, ◌==◌, ◌↔◌, ◌++◌, [], IsTrue, IfSome, IfOk, Some};
ghost use Rattle.std.specs.Prelude.{length};
ghost use Rattle.std.specs.List.{slice_get, list_any};
ghost use Rattle.vq_model.specs.Machine.{Run, AreFinished};
ghost use Rattle.vq_model.specs.FittingCommands.{HasSizes};
ghost use Rattle.vq_model.specs.OutputText.{answers_of, buffers_text};
ghost use Rattle.vq_model.specs.Outputs.{IsOutput};
ghost use Rattle.vq_model.specs.ValidScripts.{sizes_of};
ghost use Rattle.vq_model.specs.SlowRun.{bytes_after, final};
ghost use Rattle.vq_point_laws.specs.HistoryLaws.{PointLaw, PendingLaw};
ghost use Rattle.vq_point_laws.specs.Points.{HistoryFrom, opening_points, steps_of, next_job};
ghost use Rattle.vq_history_laws.specs.Histories.{acts};
ghost use Rattle.vq_point_laws.specs.Timeline.{KeepsLists};
ghost use Rattle.vq_core_laws.specs.TimelineOf.{IsTimelineOf};
ghost use Rattle.vq_core.specs.CoreState.{IsCourse, world};
ghost use Rattle.vq_tables.specs.Opened.{IsOpening};
ghost use Rattle.vq_core.specs.Tables.{jobs_left};

use std::alloc::{AllocError, Global};
use std::marker::Model;
use vq_model::list::List;
use vq_model::script::ActorName;
use vq_order::Ordered;
use vq_spec::{Buffers, Event, Op, Plan};
use vq_tables::{AnswerState, JobRecord, LaneTable, NoteTable, Opening, PointSlot, Table, open};
use vq_timeline_core::TimelineCore;

/// A lawful plan, the events that came so far, and what they have come to. Each event came when it
/// might: so the history is a run of the plan, and no point is used again too early. All memory is
/// taken by `new`.
pub struct Core {
    pub(crate) ordered: Ordered,
    pub(crate) history: Vec<Event>,
    // For each job how many batches are written before it.
    pub(crate) earlier: Table<u32>,
    // How many batches are submitted: they are in the order of the script.
    pub(crate) submitted: u32,
    pub(crate) jobs: Table<JobRecord>,
    pub(crate) answers: Table<AnswerState>,
    // For each signal operation whether it is made.
    pub(crate) made: Table<bool>,
    // How many points were made.
    pub(crate) points: u32,
    pub(crate) slots: Table<PointSlot>,
    // The payload of each chain.
    pub(crate) payloads: Vec<u64>,
    pub(crate) timelines: Vec<TimelineCore>,
    pub(crate) lanes: LaneTable,
    pub(crate) notes: NoteTable,
    pub(crate) buffers: Buffers,
    // How many jobs aren't finished.
    pub(crate) left: u32,
}

impl Drop for Core {
    fn drop(self) {
        let Core {
            ordered: _ordered,
            history: _history,
            earlier: _earlier,
            submitted: _submitted,
            jobs: _jobs,
            answers: _answers,
            made: _made,
            points: _points,
            slots: _slots,
            payloads: _payloads,
            timelines: _timelines,
            lanes: _lanes,
            notes: _notes,
            buffers: _buffers,
            left: _left,
        } = self;
    }
}

impl Model for Core {
    ghost use Rattle.vq_core.specs.CoreState.{Course};

    ghost Value = { Course };

    ghost use Rattle.vq_core.specs.Kept.{course_of, IsCore};

    ghost view = { course_of };

    ghost invariant = { IsCore };
}

/// The parts of a core.
#[derive(Drop)]
pub struct CoreParts {
    pub ordered: Ordered,
    pub history: List<Event>,
    pub buffers: Buffers,
}

impl Core {
    /// A plan, and no event yet. It takes the memory for all that later calls keep. The error is that
    /// there is none.
    pub fn new(alloc: Global, ordered: Ordered) -> Result<Core, AllocError>
        ensures { IfOk result (λ core. core ≡ record { plan = ordered; history = [] }) }
    {
        let opening = open(alloc, ordered.plan())?;
        Ok(Core::of(ordered, opening))
    }

    /// A plan with all that a core is before the first event.
    fn of(ordered: Ordered, opening: Opening) -> Core
        requires { IsOpening ordered opening }
        ensures { result ≡ record { plan = ordered; history = [] } }
    {
        let Opening {
            marks,
            chains,
            lanes,
            journal,
        } = opening;
        let left = ordered.plan().jobs();
        Core {
            ordered,
            history: journal.history,
            earlier: marks.earlier,
            submitted: 0,
            jobs: marks.jobs,
            answers: marks.answers,
            made: marks.made,
            points: 0,
            slots: marks.slots,
            payloads: chains.payloads,
            timelines: chains.timelines,
            lanes: lanes.lanes,
            notes: lanes.notes,
            buffers: journal.buffers,
            left,
        }
    }

    /// The events that came so far. Each came when it might. Without those on points they are a run of
    /// the plan; no point was used again too early, batches were released and operations bound in
    /// order; and there are no more than there is room for.
    pub fn history(&self) -> &[Event]
        ensures events { result.now ≡ self.now.history }
        ensures course { HistoryFrom self.now.plan (opening_points self.now.plan) self.now.history }
        ensures run { Run self.now.plan (steps_of self.now.history) }
        ensures points { PointLaw self.now.plan self.now.history }
        ensures pending { PendingLaw self.now.plan self.now.history }
        ensures few { length self.now.history ≤ acts self.now.plan }
    {
        self.history.as_slice()
    }

    /// Whether all jobs are finished.
    pub fn finished(&self) -> bool
        ensures { IsTrue result ↔ AreFinished self.now.plan (world self.now).machine.progress }
    {
        self.left == 0
    }

    /// The core's parts. Where all jobs are finished, the answers of its history with the buffers are an output
    /// of the plan.
    pub fn take_apart(self) -> CoreParts
        ensures ordered { result.ordered ≡ self.plan }
        ensures history { result.history ≡ self.history }
        ensures buffers { result.buffers ≡ bytes_after self.plan (world self).machine.progress.applied }
        ensures ends { AreFinished self.plan (world self).machine.progress → result.buffers ≡ final self.plan }
        ensures output { AreFinished self.plan (world self).machine.progress → IsOutput self.plan
            (answers_of self.plan (world self).machine
            ++ buffers_text self.plan.script.buffers result.buffers) }
    {
        let Core {
            ordered,
            history,
            buffers,
            earlier: _earlier,
            submitted: _submitted,
            jobs: _jobs,
            answers: _answers,
            made: _made,
            points: _points,
            slots: _slots,
            payloads: _payloads,
            timelines: _timelines,
            lanes: _lanes,
            notes: _notes,
            left: _left,
        } = self;
        CoreParts {
            ordered,
            history: List::of(history),
            buffers,
        }
    }

    /// Whether a job is submitted.
    pub fn is_submitted(&self, job: u32) -> bool
        ensures { result ≡ (world self.now).submitted job }
    {
        let earlier = self.earlier.at(job, 0);
        if !self.is_batch(job) {
            return false;
        }
        earlier < self.submitted
    }

    /// Whether a job is released.
    pub fn is_released(&self, job: u32) -> bool
        ensures { result ≡ (world self.now).released job }
    {
        self.jobs.at(job, JobRecord::idle()).released
    }

    /// Whether a job is started.
    pub(crate) fn is_started(&self, job: u32) -> bool
        ensures { result ≡ (world self.now).machine.progress.started job }
    {
        self.jobs.at(job, JobRecord::idle()).started
    }

    /// Whether a job is finished.
    pub fn is_finished(&self, job: u32) -> bool
        ensures { result ≡ (world self.now).machine.progress.finished job }
    {
        self.jobs.at(job, JobRecord::idle()).finished
    }

    /// Whether a signal operation is made.
    pub fn is_signaled(&self, op: u32) -> bool
        ensures { result ≡ (world self.now).machine.progress.made op }
    {
        self.made.at(op, false)
    }

    /// How many points were made.
    pub(crate) fn points_made(&self) -> u32
        ensures { result ≡ (world self.now).points }
    {
        self.points
    }

    /// The operation that a point carries.
    pub(crate) fn carried(&self, point: u32) -> Option<u32>
        ensures { result ≡ (world self.now).carried point }
    {
        self.slots.at(point, PointSlot::empty()).carried
    }

    /// The plan, with the order of its jobs.
    pub fn ordered(&self) -> &Ordered
        ensures value { result.now ≡ self.now.plan }
        ensures course { IsCourse self.now }
    {
        &self.ordered
    }

    /// The plan.
    pub(crate) fn plan(&self) -> &Plan
        ensures value { result.now ≡ self.now.plan }
        ensures course { IsCourse self.now }
    {
        self.ordered.plan()
    }

    /// A signal operation.
    pub(crate) fn op(&self, op: u32) -> Op
        requires { op < length self.now.plan.ops }
        ensures op { slice_get self.now.plan.ops op ≡ Some result }
        ensures chain { result.chain < length self.now.plan.chains }
        ensures job { result.job < length self.now.plan.jobs }
        ensures course { IsCourse self.now }
    {
        self.plan().op(op)
    }

    /// The lists of one chain's points.
    pub fn timeline(&self, chain: u32) -> &TimelineCore
        requires { chain < length self.now.plan.chains }
        ensures lists { IsTimelineOf self.now.plan (world self.now) chain result.now }
        ensures kept { KeepsLists result.now }
    {
        &self.timelines[chain as usize]
    }

    /// The point that an operation was given.
    pub fn point_of(&self, op: u32) -> Option<u32>
        requires { op < length self.now.plan.ops }
        ensures { result ≡ (world self.now).point_of op }
    {
        let Op { chain, index, .. } = self.plan().op(op);
        self.timeline(chain).point_at(index)
    }

    /// Whether an operation's point is bound to it: its signal is pending, or past.
    pub fn is_bound(&self, op: u32) -> bool
        requires { op < length self.now.plan.ops }
        ensures { result ≡ (world self.now).bound op }
    {
        let Op { chain, index, .. } = self.plan().op(op);
        index < self.timeline(chain).bound()
    }

    /// The free point of a chain that was freed last.
    pub(crate) fn free_point(&self, chain: u32) -> Option<u32>
        requires { chain < length self.now.plan.chains }
        ensures { result ≡ slice_get ((world self.now).free chain) 0 }
    {
        self.timeline(chain).first_free()
    }

    /// Whether a point carries an operation.
    pub(crate) fn carries(&self, point: u32, op: u32) -> bool
        ensures carries { IsTrue result ↔ ((world self.now).carried point ≡ Some op) }
        ensures exists { (world self.now).carried point ≡ Some op → op < length self.now.plan.ops }
        ensures course { IsCourse self.now }
    {
        match self.slots.at(point, PointSlot::empty()).carried {
            Some(carried) => carried == op,
            None => false,
        }
    }

    /// How many jobs aren't finished.
    pub fn left(&self) -> u32
        ensures { result ≡ jobs_left self.now.plan (world self.now).machine.progress.finished }
    {
        self.left
    }

    /// The bytes after the commands that were applied, in their order: where all jobs are finished, those
    /// that the plan leaves. The answers of the history with them are an output of the plan then.
    pub fn buffers(&self) -> &Buffers
        ensures bytes { result.now ≡ bytes_after self.now.plan (world self.now).machine.progress.applied }
        ensures ends { AreFinished self.now.plan (world self.now).machine.progress → result.now ≡ final self.now.plan }
        ensures sizes { HasSizes (sizes_of self.now.plan.script) result.now }
        ensures output { AreFinished self.now.plan (world self.now).machine.progress → IsOutput self.now.plan
            (answers_of self.now.plan (world self.now).machine
            ++ buffers_text self.now.plan.script.buffers result.now) }
    {
        &self.buffers
    }

    /// Whether a reference to a point is held.
    pub(crate) fn is_referenced(&self, point: u32) -> bool
        ensures { result ≡ list_any (λ r. r.point == point) (world self.now).held }
    {
        self.slots.at(point, PointSlot::empty()).references > 0
    }

    /// Whether a point waits to be freed.
    pub(crate) fn waits(&self, point: u32) -> bool
        ensures { result ≡ (world self.now).waiting point }
    {
        self.slots.at(point, PointSlot::empty()).waits
    }

    /// The first job of an actor's lane that isn't finished; a submitting thread has none.
    pub(crate) fn next_job(&self, actor: ActorName) -> Option<u32>
        ensures job { result ≡ next_job self.now.plan (world self.now) actor }
        ensures exists { IfSome result (λ job. job < length self.now.plan.jobs) }
        ensures course { IsCourse self.now }
    {
        match actor {
            ActorName::Host => self.lanes.next(0),
            ActorName::Submit(_) => None,
            ActorName::Ring(queue) => self.lanes.next(queue as usize + 1),
        }
    }
}
