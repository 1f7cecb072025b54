//! The text of a schedule that was played.
//!
//! Source: this project's own, where an item names no other.
ghost use Rattle.std.specs.Prelude.{◌≡◌, ◌<◌, ◌^◌, ◌++◌, All, codes, length, IfOk, OnOk};
ghost use Rattle.std.specs.Fmt.{decimal};
ghost use Rattle.vq_model.specs.OutputText.{answers_of, line_feed};
ghost use Rattle.vq_model.specs.ValidScripts.{IsActor};
ghost use Rattle.vq_core.specs.CoreState.{world};
ghost use Rattle.vq_core.specs.Tables.{jobs_left};
ghost use Rattle.vq_replay.specs.SpelledWords.{Spells};
ghost use Rattle.vq_replay.specs.Traced.{IsTrace};
ghost use Rattle.vq_replay.specs.Traces.{end_text, finished_text, trace_text};

use crate::played::Played;
use crate::schedule::Replayed;
use crate::spelled::Spelled;
use crate::trace::push_turns;
use crate::writer::Writer;
use std::alloc::{AllocError, Global};
use vq_core::{AnswerRoom, Core};
use vq_core_run::Troupe;
use vq_model::script::Turn;
use vq_order::Ordered;
use vq_spec::{Plan, push_buffers};
use vq_text::push_numeral;

/// The fewest bytes of a turn's line: a number, an actor's word of three letters and a mark, with their spaces and a
/// line feed.
const LEAST_LINE: usize = 8;

/// Adds the end of a trace that leaves so many jobs.
fn push_unfinished(out: &mut Vec<u8>, left: u32) -> Result<(), AllocError>
    ensures { OnOk result (out.new.items ≡ out.old.items ++ (codes "unfinished " ++ decimal left ++ line_feed)) }
{
    out.extend_from_slice(b"unfinished ")?;
    push_numeral(out, u64::from(left))?;
    out.push(b'\n')?;
    Ok(())
}

/// Adds the text of the answers that a core's history gave.
fn push_answers(alloc: Global, out: &mut Vec<u8>, core: &Core) -> Result<(), AllocError>
    ensures { OnOk result (out.new.items
        ≡ out.old.items ++ answers_of core.now.plan (world core.now).machine) }
{
    let room = AnswerRoom::new(alloc, core.ordered().plan())?;
    let lines = room.fill(core);
    vq_text::push_answers(out, lines.as_slice())
}

/// Adds the end of a trace that leaves no job: what was answered, and the buffers.
pub(crate) fn push_finished(alloc: Global, out: &mut Vec<u8>, core: &Core) -> Result<(), AllocError>
    ensures { OnOk result (out.new.items
        ≡ out.old.items ++ finished_text core.now.plan (world core.now).machine) }
{
    out.extend_from_slice(b"finished\n")?;
    push_answers(alloc, out, core)?;
    push_buffers(out, core.ordered().plan(), core.buffers())
}

/// Adds the end of a trace: what it leaves.
fn push_end(alloc: Global, out: &mut Vec<u8>, core: &Core) -> Result<(), AllocError>
    ensures { OnOk result (out.new.items ≡ out.old.items ++ end_text core.now.plan (world core.now).machine
        (jobs_left core.now.plan (world core.now).machine.progress.finished)) }
{
    let left = core.left();
    if left == 0 {
        return push_finished(alloc, out, core);
    }
    push_unfinished(out, left)
}

/// The text of a schedule that was played: a line for each turn, and then what it leaves: the answers and
/// the buffers, or how many jobs aren't finished. The error is want of memory.
pub fn trace_text(alloc: Global, replayed: &Replayed) -> Result<Vec<u8>, AllocError>
    ensures { IfOk result (λ text. text.items ≡ trace_text replayed.now.core.plan
        replayed.now.played.items (world replayed.now.core).machine) }
{
    let mut text = Vec::new(alloc);
    let plan = replayed.core.ordered().plan();
    push_turns(&mut text, plan, replayed.played.as_slice())?;
    push_end(alloc, &mut text, &replayed.core)?;
    Ok(text)
}

/// The words of a plan's signal operations and queues, where there are as many turns at least; else none.
fn words_for(alloc: Global, plan: &Plan, turns: usize) -> Result<Spelled, AllocError>
    ensures { IfOk result (λ words. Spells plan.now words) }
{
    if turns < plan.ops() as usize {
        return Ok(Spelled::none(alloc));
    }
    Spelled::of(alloc, plan)
}

/// Plays the turns of a schedule, as `replay` does, and writes the line of each turn when it has come. The text is
/// that of `trace_text`, and no turn is kept. The error is want of memory.
pub fn replay_text(alloc: Global, ordered: Ordered, turns: &[Turn]) -> Result<Vec<u8>, AllocError>
    requires few { length turns.now < 2 ^ 32 }
    requires actors { All (λ t. IsActor ordered.script t.actor) turns.now }
    ensures { IfOk result (λ text. IsTrace ordered turns.now text.items) }
{
    let lawful = ordered.plan();
    let words = words_for(alloc, lawful, turns.len())?;
    let mut troupe = Troupe::new(alloc, ordered)?;
    let mut text = Writer::new(alloc, LEAST_LINE * turns.len())?;
    for turn in 0..turns.len() {
        let actor = turns[turn].actor;
        let outcome = troupe.play(actor);
        let played = Played {
            number: turn as u32 + 1,
            actor,
            outcome,
        };
        text.add_turn(troupe.core().ordered().plan(), &words, &played)?;
    }
    let mut text = text.finish()?;
    let core = troupe.core();
    let _history = core.history();
    let _buffers = core.buffers();
    push_end(alloc, &mut text, core)?;
    Ok(text)
}
