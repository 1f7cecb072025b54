//! The words of a trace. Each call makes room once for all that it adds.
ghost use Rattle.std.specs.Prelude.{◌≡◌, ◌≤◌, ◌+◌, ◌++◌, ◌∷◌, [], length, OnOk};
ghost use Rattle.std.specs.Fmt.{decimal};
ghost use Rattle.std.specs.Vec.{vec_capacity, vec_len};
ghost use Rattle.vq_model.specs.Naming.{actor_word};
ghost use Rattle.vq_model.specs.OutputText.{answer_words};
ghost use Rattle.vq_model.specs.Plan.{line_of_job, line_of_command};
ghost use Rattle.vq_replay.specs.Traces.{op_words};
ghost use Rattle.vq_replay.specs.SpacedWords.{spaced};

use std::alloc::AllocError;
use vq_model::plan::Answer;
use vq_model::script::{ActorName, Script};
use vq_spec::Plan;
use vq_text::{put_number, queue_name, semaphore_name};

/// The most digits of a number of 32 bits, and of one of 64.
const COUNT_ROOM: usize = 10;

const VALUE_ROOM: usize = 20;

/// The most bytes of a word with the spaces before it and behind it, and of the front of an actor's word.
const WORD_ROOM: usize = 10;

/// Adds a word to a text that has room for it. The words are known where this is called, so that it is a store or two.
#[inline(always)]
fn put_word(out: &mut Vec<u8>, word: &[u8])
    requires { vec_len out.old + length word.now ≤ vec_capacity out.old }
    ensures items { out.new.items ≡ out.old.items ++ word.now }
    ensures len { vec_len out.new ≡ vec_len out.old + length word.now }
    ensures capacity { vec_capacity out.old ≤ vec_capacity out.new }
{
    match out.extend_from_slice(word) {
        Ok(()) => (),
        // It fails only where room is missing.
        Err(_) => unreachable!(),
    }
}

/// Adds a number to a text that has room for the longest of 32 bits.
fn put_count(out: &mut Vec<u8>, number: u32)
    requires { vec_len out.old + 10 ≤ vec_capacity out.old }
    ensures items { out.new.items ≡ out.old.items ++ decimal number }
    ensures len { vec_len out.new ≤ vec_len out.old + 10 }
    ensures capacity { vec_capacity out.old ≤ vec_capacity out.new }
{
    put_number(out, u64::from(number));
}

/// Adds the number of a turn, the front of its actor's word and the name of a queue.
#[inline(always)]
fn push_numbered(out: &mut Vec<u8>, turn: u32, front: &[u8], name: &[u8]) -> Result<(), AllocError>
    requires { length front.now ≤ 10 }
    ensures { OnOk result (out.new.items ≡ out.old.items ++ (decimal turn ++ (front.now ++ name.now))) }
{
    out.reserve(COUNT_ROOM + WORD_ROOM + name.len())?;
    put_count(out, turn);
    put_word(out, front);
    put_word(out, name);
    Ok(())
}

/// Adds the number of a turn, a space and the word of its actor.
pub(crate) fn push_actor(
    out: &mut Vec<u8>,
    script: &Script,
    turn: u32,
    actor: ActorName,
) -> Result<(), AllocError>
    ensures { OnOk result (out.new.items ≡ out.old.items ++ (decimal turn ++ 32 ∷ actor_word script.now actor)) }
{
    match actor {
        ActorName::Host => push_numbered(out, turn, b" host", &[]),
        ActorName::Submit(queue) => push_numbered(out, turn, b" S:", queue_name(script, queue)),
        ActorName::Ring(queue) => push_numbered(out, turn, b" R:", queue_name(script, queue)),
    }
}

/// Adds a word and a number.
#[inline(always)]
pub(crate) fn push_count(out: &mut Vec<u8>, word: &[u8], number: u32) -> Result<(), AllocError>
    requires { length word.now ≤ 10 }
    ensures { OnOk result (out.new.items ≡ out.old.items ++ (word.now ++ decimal number)) }
{
    out.reserve(WORD_ROOM + COUNT_ROOM)?;
    put_word(out, word);
    put_count(out, number);
    Ok(())
}

/// Adds the words of a signal operation: its semaphore and its value; none for one that isn't there.
pub(crate) fn push_op(out: &mut Vec<u8>, plan: &Plan, op: u32) -> Result<(), AllocError>
    ensures { OnOk result (out.new.items ≡ out.old.items ++ spaced (op_words plan.now op)) }
{
    if op >= plan.ops() {
        return Ok(());
    }
    let found = plan.op(op);
    let name = semaphore_name(plan.script(), found.chain);
    out.reserve(name.len() + VALUE_ROOM + 2)?;
    out.push_reserved(b' ');
    put_word(out, name);
    out.push_reserved(b' ');
    put_number(out, found.value);
    Ok(())
}

/// The line of a job, 0 for one that isn't there.
pub(crate) fn line_of_job(plan: &Plan, job: u32) -> u32
    ensures { result ≡ line_of_job plan.now job }
{
    if job >= plan.jobs() {
        return 0;
    }
    plan.job(job).line
}

/// The line of a command, 0 for one that isn't there.
pub(crate) fn line_of_command(plan: &Plan, command: u32) -> u32
    ensures { result ≡ line_of_command plan.now command }
{
    if command >= plan.commands() {
        return 0;
    }
    plan.command(command).line
}

/// Adds a space and the words of an answer.
pub(crate) fn push_answer(out: &mut Vec<u8>, answer: Answer) -> Result<(), AllocError>
    ensures { OnOk result (out.new.items ≡ out.old.items ++ 32 ∷ answer_words answer) }
{
    out.push(b' ')?;
    vq_text::push_answer(out, answer)
}
