//! A fair schedule, played to the end: rounds, in which each actor has a turn.
//!
//! Source: this project's own, where an item names no other.
ghost use Rattle.std.specs.Prelude.{IfOk, List, OnOk};
ghost use Rattle.vq_replay.specs.declared.played.Played.{Played as Turn};
ghost use Rattle.vq_replay.specs.Passages.{AreWritten};
ghost use Rattle.vq_replay.specs.Rounds.{HaveFinished, IsRoundsTrace};
ghost use Rattle.vq_replay.specs.SpelledWords.{Spells};

use crate::fair_play::FairPlay;
use crate::played::Played;
use crate::schedule::Replayed;
use crate::spelled::Spelled;
use crate::text::push_finished;
use crate::writer::Writer;
use std::alloc::{AllocError, Global};
use vq_order::Ordered;
use vq_spec::Plan;

/// How many turns are kept at least before their lines are written.
const MANY: usize = 1024;

/// Plays rounds over a new core until all jobs are finished: the fewest that finish it, and no more than there are
/// acts. In a round the host has a turn, then the submit actor of each threaded queue, then the ring of each queue.
/// The turns that moved stand in their order, each with its number among all turns. No script that is lawful stays
/// unfinished: the error is that there is no memory.
pub fn rounds(alloc: Global, ordered: Ordered) -> Result<Replayed, AllocError>
    ensures { IfOk result (λ r. HaveFinished ordered r.played.items r.core) }
{
    let _lawful = ordered.plan();
    let mut fair = FairPlay::new(alloc, ordered)?;
    let mut played = Vec::new(alloc);
    for _count in 0..u32::MAX {
        if fair.core().finished() {
            let core = fair.into_core();
            return Ok(Replayed { played, core });
        }
        fair.play_round(&mut played)?;
    }
    unreachable!()
}

/// Adds the lines of turns to a text once there are many, and keeps these turns no longer.
fn write_many(
    text: &mut Writer,
    plan: &Plan,
    words: &Spelled,
    played: &mut Vec<Played>,
) -> Result<(), AllocError>
    requires { Spells plan.now words.now }
    ensures { OnOk result ((turns : List Turn) → AreWritten plan.now turns text.old played.old.items →
        AreWritten plan.now turns text.new played.new.items) }
{
    if played.len() < MANY {
        return Ok(());
    }
    text.add(plan, words, played.as_slice())?;
    played.clear();
    Ok(())
}

/// The text of the rounds of a plan: a line for each turn that moved, and then `finished`, the answers and the
/// buffers. The error is want of memory.
pub fn rounds_text(alloc: Global, ordered: Ordered) -> Result<Vec<u8>, AllocError>
    ensures { IfOk result (λ text. IsRoundsTrace ordered text.items) }
{
    let lawful = ordered.plan();
    let words = Spelled::of(alloc, lawful)?;
    let mut fair = FairPlay::new(alloc, ordered)?;
    let mut played = Vec::new(alloc);
    let mut text = Writer::new(alloc, 0)?;
    for _count in 0..u32::MAX {
        let core = fair.core();
        let plan = core.ordered().plan();
        if core.finished() {
            let _history = core.history();
            let _buffers = core.buffers();
            text.add(plan, &words, played.as_slice())?;
            let mut text = text.finish()?;
            push_finished(alloc, &mut text, core)?;
            return Ok(text);
        }
        write_many(&mut text, plan, &words, &mut played)?;
        fair.play_round(&mut played)?;
    }
    unreachable!()
}
