//! The answers that a history gave.
//!
//! Source: this project's own, where an item names no other.
ghost use Rattle.std.specs.Prelude.{◌≡◌, ◌<◌, ◌≤◌, ◌+◌, ◌++◌, ℕ, [], None, map, length, IfOk};
ghost use Rattle.std.specs.List.{cons_option, range_with_len};
ghost use Rattle.std.specs.Option.{option_map};
ghost use Rattle.std.specs.Vec.{vec_len, vec_capacity};
ghost use Rattle.vq_model.specs.Plan.{Plan as AnyPlan};
ghost use Rattle.vq_model.specs.OutputText.{answer_at, lines_answered};
ghost use Rattle.vq_point_laws.specs.Points.{PointState, after_event};
ghost use Rattle.vq_core.specs.CoreState.{world};
ghost use Rattle.vq_core.specs.Answered.{AreAnswers};

use crate::state::Core;
use std::alloc::{AllocError, Global};
use std::marker::Model;
use vq_model::plan::{Answer, AnswerLine, Event};
use vq_spec::Plan;

/// Room for the answers to the host steps of a plan. It is made before a run, and filled after it.
/// Contracts see for how many jobs there is room.
#[derive(Drop)]
pub struct AnswerRoom {
    // What each job was answered: nothing yet.
    given: Vec<Option<Answer>>,
    lines: Vec<AnswerLine>,
}

impl Model for AnswerRoom {
    ghost use Rattle.std.specs.Prelude.{ℕ, length};
    ghost use Rattle.std.specs.Vec.{vec_capacity};
    ghost use Rattle.vq_core.specs.Answered.{IsRoom};

    ghost Value = { ℕ };

    ghost view = { λ a. length a.given.items };

    ghost invariant = { λ a. IsRoom a.given.items a.lines.items (vec_capacity a.lines) };
}

impl AnswerRoom {
    /// Room for all answers to a plan's host steps. The error is want of memory.
    pub fn new(alloc: Global, plan: &Plan) -> Result<AnswerRoom, AllocError>
        ensures { IfOk result (λ room. room ≡ length plan.now.jobs) }
    {
        let given = no_answers(alloc, plan.jobs())?;
        let lines = Vec::with_capacity(alloc, plan.jobs() as usize)?;
        Ok(AnswerRoom { given, lines })
    }

    /// The answers that a core's history gave, in the order of the script, with the lines of their steps.
    /// It takes no memory.
    pub fn fill(self, core: &Core) -> Vec<AnswerLine>
        requires { self ≡ length core.now.plan.jobs }
        ensures { result.items ≡ lines_answered core.now.plan (world core.now).machine }
    {
        let AnswerRoom {
            mut given,
            mut lines,
        } = self;
        note_all(&mut given, core);
        add_lines(&mut lines, core, given.as_slice());
        lines
    }
}

/// No answer for each of so many jobs.
fn no_answers(alloc: Global, jobs: u32) -> Result<Vec<Option<Answer>>, AllocError>
    ensures { IfOk result (λ given. given.items ≡ map (λ j. None) (range_with_len 0 jobs)) }
{
    vec![in alloc; None; jobs as usize]
}

/// Notes the answer that an event gives, if it gives one.
fn note(given: &mut Vec<Option<Answer>>, event: Event)
    ensures { (p : AnyPlan) → (w : PointState) → (n : ℕ) → AreAnswers w n given.old.items →
        AreAnswers (after_event p w event) n given.new.items }
{
    if let Event::Answer { job, answer } = event {
        if (job as usize) < given.as_slice().len() {
            given[job as usize] = Some(answer);
        }
    }
}

/// Notes the answers that a core's history gave, by job.
fn note_all(given: &mut Vec<Option<Answer>>, core: &Core)
    requires { given.old.items ≡ map (λ j. None) (range_with_len 0 (length core.now.plan.jobs)) }
    ensures { AreAnswers (world core.now) (length core.now.plan.jobs) given.new.items }
{
    for event in core.history() {
        note(given, *event);
    }
}

/// Adds a line for the answer of a job, if it was answered.
fn add_line(lines: &mut Vec<AnswerLine>, plan: &Plan, job: u32, given: Option<Answer>)
    requires exists { job < length plan.now.jobs }
    requires room { vec_len lines.old < vec_capacity lines.old }
    ensures items { lines.new.items ≡ lines.old.items ++ cons_option (option_map (answer_at plan.now job) given) [] }
    ensures count { vec_len lines.new ≤ vec_len lines.old + 1 }
    ensures room { vec_capacity lines.new ≡ vec_capacity lines.old }
{
    let Some(answer) = given else {
        return;
    };
    let line = plan.job(job).line;
    lines.push_reserved(AnswerLine { line, answer });
}

/// Adds the answers of a core's jobs, in the order of the script, with the lines of their steps.
fn add_lines(lines: &mut Vec<AnswerLine>, core: &Core, given: &[Option<Answer>])
    requires empty { lines.old.items ≡ [] }
    requires room { length core.now.plan.jobs ≤ vec_capacity lines.old }
    requires given { AreAnswers (world core.now) (length core.now.plan.jobs) given.now }
    ensures { lines.new.items ≡ lines_answered core.now.plan (world core.now).machine }
{
    let plan = core.ordered().plan();
    for job in 0..plan.jobs() {
        add_line(lines, plan, job, given[job as usize]);
    }
}
