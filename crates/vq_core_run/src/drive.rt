//! A run that is driven from outside.
//!
//! Source: this project's own, where an item names no other.
ghost use Rattle.std.specs.Prelude.{◌≡◌, ◌↔◌, ◌++◌, [], IsTrue, IfOk, Some};
ghost use Rattle.std.specs.List.{slice_get};
ghost use Rattle.vq_model.specs.Machine.{AreFinished};
ghost use Rattle.vq_model.specs.FittingCommands.{HasSizes};
ghost use Rattle.vq_model.specs.OutputText.{answers_of, buffers_text, lines_answered};
ghost use Rattle.vq_model.specs.Outputs.{IsOutput};
ghost use Rattle.vq_model.specs.Plan.{line_of_job};
ghost use Rattle.vq_model.specs.SlowRun.{bytes_after, final};
ghost use Rattle.vq_model.specs.ValidScripts.{sizes_of};
ghost use Rattle.vq_core.specs.CoreState.{world};
ghost use Rattle.vq_core_run.specs.Driven.{IsTurnOf, has_actor};
ghost use Rattle.vq_core_run.specs.Casts.{first_places, places};
ghost use Rattle.vq_turns.specs.Wants.{IsNotSo};
ghost use Rattle.vq_turns.specs.declared.outcome.Outcome.{Outcome as AnyOutcome};
ghost use Rattle.vq_turns.specs.declared.outcome.Want.{Want};

use crate::numbers::{actor_numbered, has_actor};
use crate::troupe::Troupe;
use std::alloc::{AllocError, Global};
use std::marker::Model;
use vq_core::AnswerRoom;
use vq_model::plan::{AnswerLine, Op};
use vq_model::script::ActorName;
use vq_order::Ordered;
use vq_spec::Buffers;
use vq_turns::outcome::Outcome;

/// A run of a lawful plan: its actors, each at its place, over one core with the events of all turns so far. Contracts
/// see the core with the places.
pub struct Drive {
    troupe: Troupe,
}

impl Drop for Drive {
    fn drop(self) {
        let Drive { troupe: _troupe } = self;
    }
}

impl Model for Drive {
    ghost use Rattle.vq_core_run.specs.Casts.{Cast};

    ghost Value = { Cast };

    ghost view = { λ d. d.troupe };
}

impl Drive {
    /// A run before its first turn. It takes the memory for all turns; the error is that there is none.
    pub fn new(alloc: Global, ordered: Ordered) -> Result<Drive, AllocError>
        ensures course { IfOk result (λ d. d.course ≡ record { plan = ordered; history = [] }) }
        ensures first { IfOk result (λ d. places d ≡ first_places) }
    {
        let troupe = Troupe::new(alloc, ordered)?;
        Ok(Drive { troupe })
    }

    /// A turn of the actor with a number; `None`, and nothing is done, where the plan has none. The turn and its
    /// outcome are those of the definition of turns: the event that it made, what the actor waits for, or that it has
    /// ended. Where it waits for something, that isn't so. It takes no memory.
    pub fn turn(&mut self, number: u32) -> Option<Outcome>
        ensures turn { IsTurnOf self.old self.new number result }
        ensures blocked { (want : Want) → result ≡ Some (AnyOutcome.Blocked want) →
            IsNotSo (world self.old.course) want }
    {
        let actor = actor_numbered(number);
        if self.has(actor) {
            Some(self.troupe.play(actor))
        } else {
            None
        }
    }

    /// Whether the plan has an actor.
    fn has(&self, actor: ActorName) -> bool
        ensures { result ≡ has_actor self.now.course.plan.script actor }
    {
        has_actor(self.ordered().plan().script(), actor)
    }

    /// The plan.
    pub fn ordered(&self) -> &Ordered
        ensures { result.now ≡ self.now.course.plan }
    {
        self.troupe.core().ordered()
    }

    /// The line of a job: of a batch, or of a step of the host. 0 where there is no such job.
    pub fn line_of(&self, job: u32) -> u32
        ensures { result ≡ line_of_job self.now.course.plan job }
    {
        let plan = self.ordered().plan();
        if job < plan.jobs() {
            plan.job(job).line
        } else {
            0
        }
    }

    /// A signal operation, if the plan has it.
    pub fn op(&self, op: u32) -> Option<Op>
        ensures { result ≡ slice_get self.now.course.plan.ops op }
    {
        let plan = self.ordered().plan();
        if op < plan.ops() {
            Some(plan.op(op))
        } else {
            None
        }
    }

    /// Whether all jobs are finished.
    pub fn is_finished(&self) -> bool
        ensures { IsTrue result ↔ AreFinished self.now.course.plan (world self.now.course).machine.progress }
    {
        self.troupe.core().finished()
    }

    /// What the host's steps were answered so far, in the order of the script, with the lines of the steps. The error
    /// is want of memory.
    pub fn answers(&self, alloc: Global) -> Result<Vec<AnswerLine>, AllocError>
        ensures { IfOk result (λ lines. lines.items
            ≡ lines_answered self.now.course.plan (world self.now.course).machine) }
    {
        let core = self.troupe.core();
        let room = AnswerRoom::new(alloc, core.ordered().plan())?;
        Ok(room.fill(core))
    }

    /// The buffers, after the commands that were applied. Where all jobs are finished they have the bytes that the plan
    /// leaves, and with the answers they are one of its outputs.
    pub fn buffers(&self) -> &Buffers
        ensures bytes { result.now
            ≡ bytes_after self.now.course.plan (world self.now.course).machine.progress.applied }
        ensures ends { AreFinished self.now.course.plan (world self.now.course).machine.progress →
            result.now ≡ final self.now.course.plan }
        ensures sizes { HasSizes (sizes_of self.now.course.plan.script) result.now }
        ensures output { AreFinished self.now.course.plan (world self.now.course).machine.progress →
            IsOutput self.now.course.plan (answers_of self.now.course.plan (world self.now.course).machine
            ++ buffers_text self.now.course.plan.script.buffers result.now) }
    {
        self.troupe.core().buffers()
    }
}
