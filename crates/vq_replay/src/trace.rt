//! The lines of a trace, added to a text.
//!
//! Source: this project's own.
ghost use Rattle.std.specs.Prelude.{◌≡◌, ◌≤◌, ◌++◌, ◌∷◌, [], length, OnOk};
ghost use Rattle.std.specs.List.{flat_map};
ghost use Rattle.std.specs.Fmt.{decimal};
ghost use Rattle.vq_replay.specs.SpacedWords.{spaced};
ghost use Rattle.vq_replay.specs.Traces.{event_words, op_words, outcome_words, taken_word, turn_line};
ghost use Rattle.vq_model.specs.Plan.{line_of_job};

use crate::played::Played;
use crate::words::{line_of_command, line_of_job, push_actor, push_answer, push_count, push_op};
use std::alloc::AllocError;
use vq_model::plan::Event;
use vq_spec::Plan;
use vq_turns::outcome::Outcome;

/// Adds a word and the line of a job.
#[inline(always)]
fn push_job(out: &mut Vec<u8>, word: &[u8], plan: &Plan, job: u32) -> Result<(), AllocError>
    requires { length word.now ≤ 10 }
    ensures { OnOk result (out.new.items ≡ out.old.items ++ (word.now ++ decimal (line_of_job plan.now job))) }
{
    push_count(out, word, line_of_job(plan, job))
}

/// Adds a word, a point and a signal operation.
#[inline(always)]
fn push_point(
    out: &mut Vec<u8>,
    word: &[u8],
    plan: &Plan,
    point: u32,
    op: u32,
) -> Result<(), AllocError>
    requires { length word.now ≤ 10 }
    ensures { OnOk result (out.new.items
        ≡ out.old.items ++ (word.now ++ (decimal point ++ spaced (op_words plan.now op)))) }
{
    push_count(out, word, point)?;
    push_op(out, plan, op)
}

/// Adds a word and a signal operation.
#[inline(always)]
fn push_named_op(out: &mut Vec<u8>, word: &[u8], plan: &Plan, op: u32) -> Result<(), AllocError>
    ensures { OnOk result (out.new.items ≡ out.old.items ++ (word.now ++ spaced (op_words plan.now op))) }
{
    out.extend_from_slice(word)?;
    push_op(out, plan, op)
}

/// Adds where a point comes from, and the point.
fn push_taken(out: &mut Vec<u8>, fresh: bool, point: u32) -> Result<(), AllocError>
    ensures { OnOk result (out.new.items ≡ out.old.items ++ spaced (taken_word fresh ∷ decimal point ∷ [])) }
{
    if fresh {
        push_count(out, b" fresh ", point)
    } else {
        push_count(out, b" reused ", point)
    }
}

/// Adds the words of an event.
fn push_event(out: &mut Vec<u8>, plan: &Plan, event: Event) -> Result<(), AllocError>
    ensures { OnOk result (out.new.items ≡ out.old.items ++ spaced (event_words plan.now event)) }
{
    match event {
        Event::Submit { job } => push_job(out, b" submit ", plan, job),
        Event::Take { op, point, fresh } => {
            push_named_op(out, b" take", plan, op)?;
            push_taken(out, fresh, point)
        }
        Event::Release { job } => push_job(out, b" release ", plan, job),
        Event::Bind { op, point } => {
            push_named_op(out, b" bind", plan, op)?;
            push_count(out, b" ", point)
        }
        Event::Refer { point, op, .. } => push_point(out, b" refer ", plan, point, op),
        Event::Look { point, op, .. } => push_point(out, b" look ", plan, point, op),
        Event::Unref { point, op, .. } => push_point(out, b" unref ", plan, point, op),
        Event::Complete { op } => push_named_op(out, b" complete", plan, op),
        Event::Free { point } => push_count(out, b" free ", point),
        Event::Start { job } => push_job(out, b" start ", plan, job),
        Event::Apply { command, .. } => {
            push_count(out, b" apply ", line_of_command(plan, command))
        }
        Event::Signal { op } => push_named_op(out, b" signal", plan, op),
        Event::Finish { job } => push_job(out, b" finish ", plan, job),
        Event::Answer { job, answer } => {
            push_job(out, b" answer ", plan, job)?;
            push_answer(out, answer)
        }
    }
}

/// Adds the words of an outcome.
fn push_outcome(out: &mut Vec<u8>, plan: &Plan, outcome: Outcome) -> Result<(), AllocError>
    ensures { OnOk result (out.new.items ≡ out.old.items ++ spaced (outcome_words plan.now outcome)) }
{
    match outcome {
        Outcome::Moved(event) => push_event(out, plan, event),
        Outcome::Blocked(_) => out.extend_from_slice(b" -"),
        Outcome::Ended => out.extend_from_slice(b" ."),
    }
}

/// Adds the line of a played turn.
pub(crate) fn push_turn(out: &mut Vec<u8>, plan: &Plan, played: &Played) -> Result<(), AllocError>
    ensures { OnOk result (out.new.items ≡ out.old.items ++ turn_line plan.now played.now) }
{
    push_actor(out, plan.script(), played.number, played.actor)?;
    push_outcome(out, plan, played.outcome)?;
    out.push(b'\n')?;
    Ok(())
}

/// Adds a line for each played turn.
pub fn push_turns(out: &mut Vec<u8>, plan: &Plan, played: &[Played]) -> Result<(), AllocError>
    ensures { OnOk result (out.new.items ≡ out.old.items ++ flat_map (turn_line plan.now) played.now) }
{
    for turn in played {
        push_turn(out, plan, turn)?;
    }
    Ok(())
}
