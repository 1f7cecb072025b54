//! The lines of a canonical text that are a schedule.
ghost use Rattle.std.specs.Prelude.{◌≡◌, ◌≤◌, ◌++◌, ◌∷◌, OnOk, length};
ghost use Rattle.std.specs.List.{flat_map, prefix_len};
ghost use Rattle.vq_model.specs.Canonical.{joined_turns, line_text, schedule_words};
ghost use Rattle.vq_model.specs.Naming.{actor_word, same_actor};
ghost use Rattle.vq_model.specs.Canonical.{turns_words};

use crate::batches::queue_name;
use crate::words::push_number;
use std::alloc::AllocError;
use vq_model::script::{ActorName, Script, Turn};

/// Adds the word of an actor. The error is want of memory.
pub fn push_actor(out: &mut Vec<u8>, script: &Script, actor: ActorName) -> Result<(), AllocError>
    ensures { OnOk result (out.new.items ≡ out.old.items ++ actor_word script.now actor) }
{
    match actor {
        ActorName::Host => out.extend_from_slice(b"host"),
        ActorName::Submit(queue) => {
            out.extend_from_slice(b"S:")?;
            out.extend_from_slice(queue_name(script, queue))
        }
        ActorName::Ring(queue) => {
            out.extend_from_slice(b"R:")?;
            out.extend_from_slice(queue_name(script, queue))
        }
    }
}

/// Adds the line of some turns of an actor: a count stands there where there is more than one.
fn push_turns(
    out: &mut Vec<u8>,
    script: &Script,
    actor: ActorName,
    count: u64,
) -> Result<(), AllocError>
    ensures { OnOk result
        (out.new.items ≡ out.old.items ++ line_text (turns_words script.now (actor, count))) }
{
    push_actor(out, script, actor)?;
    if 1 < count {
        push_number(out, count)?;
    }
    out.push(b'\n')?;
    Ok(())
}

/// Whether two actors are the same.
fn same_actor(one: ActorName, other: ActorName) -> bool
    ensures { result ≡ same_actor one other }
{
    match (one, other) {
        (ActorName::Host, ActorName::Host) => true,
        (ActorName::Submit(queue), ActorName::Submit(other_queue)) => queue == other_queue,
        (ActorName::Ring(queue), ActorName::Ring(other_queue)) => queue == other_queue,
        _ => false,
    }
}

/// How many turns are of one actor, up to the first that is of another.
fn neighbours(turns: &[Turn], actor: ActorName) -> usize
    ensures exact { result ≡ prefix_len (λ t. same_actor actor t.actor) turns.now }
    ensures within { result ≤ length turns.now }
{
    for place in 0..turns.len() {
        if !same_actor(actor, turns[place].actor) {
            return place;
        }
    }
    turns.len()
}

/// Adds the lines of turns: neighbouring turns of one actor are one line.
fn push_all_turns(out: &mut Vec<u8>, script: &Script, turns: &[Turn]) -> Result<(), AllocError>
    ensures { OnOk result (out.new.items ≡ out.old.items
        ++ flat_map (λ t. line_text (turns_words script.now t)) (joined_turns turns.now)) }
{
    let mut rest = turns;
    while let [first, ..] = rest {
        let count = neighbours(rest, first.actor);
        push_turns(out, script, first.actor, count as u64)?;
        let (_, others) = rest.split_at(count);
        rest = others;
    }
    Ok(())
}

/// Adds the lines of a script's schedule, if it has one.
pub(crate) fn push_schedule(out: &mut Vec<u8>, script: &Script) -> Result<(), AllocError>
    ensures { OnOk result (out.new.items ≡ out.old.items
        ++ flat_map line_text (schedule_words script.now)) }
{
    if script.scheduled {
        out.extend_from_slice(b"schedule\n")?;
        push_all_turns(out, script, script.turns.as_slice())
    } else {
        Ok(())
    }
}
