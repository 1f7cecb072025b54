//! The lines of a trace, written into a room from a place on. Each call gives the place behind what it wrote.
//!
//! Source: this project's own.
ghost use Rattle.std.specs.Prelude.{◌≡◌, ◌≤◌, ◌+◌, ◌++◌, ◌∷◌, [], length, take};
ghost use Rattle.std.specs.Fmt.{decimal};
ghost use Rattle.vq_model.specs.declared.plan.Answer.TheVariants.{Value};
ghost use Rattle.vq_model.specs.declared.plan.Event.TheVariants.{Answer as Answered, Bind, Take};
ghost use Rattle.vq_model.specs.Naming.{actor_word, queue_name};
ghost use Rattle.vq_model.specs.OutputText.{answer_words};
ghost use Rattle.vq_model.specs.Plan.{line_of_job};
ghost use Rattle.vq_replay.specs.SpacedWords.{spaced};
ghost use Rattle.vq_replay.specs.SpelledWords.{AreSpelled};
ghost use Rattle.vq_replay.specs.Traces.{event_words, op_words, outcome_words, taken_word, turn_line};

use crate::digits::{put_count, put_value};
use crate::pieces::{put_piece, put_word};
use crate::played::Played;
use crate::spelled::Spelled;
use crate::words::{line_of_command, line_of_job};
use vq_model::plan::{Answer, Event};
use vq_model::script::ActorName;
use vq_spec::Plan;
use vq_turns::outcome::Outcome;

/// Writes a word and a number.
#[inline(always)]
fn put_counted(room: &mut [u8], at: usize, word: &[u8], number: u32) -> usize
    requires short { length word.now ≤ 10 }
    requires room { at + 20 ≤ length room.old }
    ensures within { result ≤ at + 20 }
    ensures written { take result room.new ≡ take at room.old ++ (word.now ++ decimal number) }
{
    let at = put_word(room, at, word);
    put_count(room, at, number)
}

/// Writes a word and the line of a job.
#[inline(always)]
fn put_job(room: &mut [u8], at: usize, word: &[u8], plan: &Plan, job: u32) -> usize
    requires short { length word.now ≤ 10 }
    requires room { at + 20 ≤ length room.old }
    ensures within { result ≤ at + 20 }
    ensures written { take result room.new
        ≡ take at room.old ++ (word.now ++ decimal (line_of_job plan.now job)) }
{
    put_counted(room, at, word, line_of_job(plan, job))
}

/// Writes a signal operation.
#[inline(always)]
fn put_op(room: &mut [u8], at: usize, plan: &Plan, words: &Spelled, op: u32) -> usize
    requires room { at + 48 ≤ length room.old }
    requires spelled { AreSpelled plan.now words.now }
    ensures within { result ≤ at + 48 }
    ensures written { take result room.new ≡ take at room.old ++ spaced (op_words plan.now op) }
{
    let _ = plan;
    let (pieces, number) = (words.ops.as_slice(), op as usize);
    if number < pieces.len() {
        return put_piece(room, at, &pieces[number]);
    }
    at
}

/// Writes a word and a signal operation.
#[inline(always)]
fn put_named_op(
    room: &mut [u8],
    at: usize,
    word: &[u8],
    plan: &Plan,
    words: &Spelled,
    op: u32,
) -> usize
    requires short { length word.now ≤ 10 }
    requires room { at + 58 ≤ length room.old }
    requires spelled { AreSpelled plan.now words.now }
    ensures within { result ≤ at + 58 }
    ensures written { take result room.new
        ≡ take at room.old ++ (word.now ++ spaced (op_words plan.now op)) }
{
    let at = put_word(room, at, word);
    put_op(room, at, plan, words, op)
}

/// Writes a word, a point and a signal operation.
#[inline(always)]
fn put_point(
    room: &mut [u8],
    at: usize,
    word: &[u8],
    plan: &Plan,
    words: &Spelled,
    point: u32,
    op: u32,
) -> usize
    requires short { length word.now ≤ 10 }
    requires room { at + 68 ≤ length room.old }
    requires spelled { AreSpelled plan.now words.now }
    ensures within { result ≤ at + 68 }
    ensures written { take result room.new
        ≡ take at room.old ++ (word.now ++ (decimal point ++ spaced (op_words plan.now op))) }
{
    let at = put_counted(room, at, word, point);
    put_op(room, at, plan, words, op)
}

/// Writes where a point comes from, and the point.
#[inline(always)]
fn put_taken(room: &mut [u8], at: usize, fresh: bool, point: u32) -> usize
    requires { at + 20 ≤ length room.old }
    ensures within { result ≤ at + 20 }
    ensures written { take result room.new
        ≡ take at room.old ++ spaced (taken_word fresh ∷ decimal point ∷ []) }
{
    if fresh {
        put_counted(room, at, b" fresh ", point)
    } else {
        put_counted(room, at, b" reused ", point)
    }
}

/// Writes the value that a job was answered.
fn put_answered(room: &mut [u8], at: usize, value: u64) -> usize
    requires { at + 34 ≤ length room.old }
    ensures within { result ≤ at + 34 }
    ensures written { take result room.new ≡ take at room.old ++ 32 ∷ answer_words (Value value) }
{
    let at = put_word(room, at, b" value ");
    put_value(room, at, value)
}

/// Writes a space and the words of an answer.
fn put_answer(room: &mut [u8], at: usize, answer: Answer) -> usize
    requires { at + 34 ≤ length room.old }
    ensures within { result ≤ at + 34 }
    ensures written { take result room.new ≡ take at room.old ++ 32 ∷ answer_words answer }
{
    match answer {
        Answer::Reached => put_word(room, at, b" ok"),
        Answer::Timeout => put_word(room, at, b" timeout"),
        Answer::NotReady => put_word(room, at, b" not-ready"),
        Answer::Value(value) => put_answered(room, at, value),
    }
}

/// Writes the words of a taken point.
#[inline(always)]
fn put_take(
    room: &mut [u8],
    at: usize,
    plan: &Plan,
    words: &Spelled,
    op: u32,
    point: u32,
    fresh: bool,
) -> usize
    requires room { at + 80 ≤ length room.old }
    requires spelled { AreSpelled plan.now words.now }
    ensures within { result ≤ at + 80 }
    ensures written { take result room.new
        ≡ take at room.old ++ spaced (event_words plan.now (Take op point fresh)) }
{
    let at = put_named_op(room, at, b" take", plan, words, op);
    put_taken(room, at, fresh, point)
}

/// Writes the words of a bound operation.
#[inline(always)]
fn put_bind(room: &mut [u8], at: usize, plan: &Plan, words: &Spelled, op: u32, point: u32) -> usize
    requires room { at + 80 ≤ length room.old }
    requires spelled { AreSpelled plan.now words.now }
    ensures within { result ≤ at + 80 }
    ensures written { take result room.new
        ≡ take at room.old ++ spaced (event_words plan.now (Bind op point)) }
{
    let at = put_named_op(room, at, b" bind", plan, words, op);
    put_counted(room, at, b" ", point)
}

/// Writes the words of an answered job.
fn put_question(room: &mut [u8], at: usize, plan: &Plan, job: u32, answer: Answer) -> usize
    requires { at + 80 ≤ length room.old }
    ensures within { result ≤ at + 80 }
    ensures written { take result room.new
        ≡ take at room.old ++ spaced (event_words plan.now (Answered job answer)) }
{
    let at = put_job(room, at, b" answer ", plan, job);
    put_answer(room, at, answer)
}

/// Writes the words of an event.
#[inline(always)]
fn put_event(room: &mut [u8], at: usize, plan: &Plan, words: &Spelled, event: Event) -> usize
    requires room { at + 80 ≤ length room.old }
    requires spelled { AreSpelled plan.now words.now }
    ensures within { result ≤ at + 80 }
    ensures written { take result room.new ≡ take at room.old ++ spaced (event_words plan.now event) }
{
    match event {
        Event::Submit { job } => put_job(room, at, b" submit ", plan, job),
        Event::Take { op, point, fresh } => put_take(room, at, plan, words, op, point, fresh),
        Event::Release { job } => put_job(room, at, b" release ", plan, job),
        Event::Bind { op, point } => put_bind(room, at, plan, words, op, point),
        Event::Refer { point, op, .. } => put_point(room, at, b" refer ", plan, words, point, op),
        Event::Look { point, op, .. } => put_point(room, at, b" look ", plan, words, point, op),
        Event::Unref { point, op, .. } => put_point(room, at, b" unref ", plan, words, point, op),
        Event::Complete { op } => put_named_op(room, at, b" complete", plan, words, op),
        Event::Free { point } => put_counted(room, at, b" free ", point),
        Event::Start { job } => put_job(room, at, b" start ", plan, job),
        Event::Apply { command, .. } => {
            put_counted(room, at, b" apply ", line_of_command(plan, command))
        }
        Event::Signal { op } => put_named_op(room, at, b" signal", plan, words, op),
        Event::Finish { job } => put_job(room, at, b" finish ", plan, job),
        Event::Answer { job, answer } => put_question(room, at, plan, job, answer),
    }
}

/// Writes the words of an outcome.
#[inline(always)]
fn put_outcome(room: &mut [u8], at: usize, plan: &Plan, words: &Spelled, outcome: Outcome) -> usize
    requires room { at + 80 ≤ length room.old }
    requires spelled { AreSpelled plan.now words.now }
    ensures within { result ≤ at + 80 }
    ensures written { take result room.new ≡ take at room.old ++ spaced (outcome_words plan.now outcome) }
{
    match outcome {
        Outcome::Moved(event) => put_event(room, at, plan, words, event),
        Outcome::Blocked(_) => put_word(room, at, b" -"),
        Outcome::Ended => put_word(room, at, b" ."),
    }
}

/// Writes the name of a queue.
#[inline(always)]
fn put_name(room: &mut [u8], at: usize, plan: &Plan, words: &Spelled, queue: u32) -> usize
    requires room { at + 48 ≤ length room.old }
    requires spelled { AreSpelled plan.now words.now }
    ensures within { result ≤ at + 48 }
    ensures written { take result room.new ≡ take at room.old ++ queue_name plan.now.script queue }
{
    let _ = plan;
    let (pieces, number) = (words.queues.as_slice(), queue as usize);
    if number < pieces.len() {
        return put_piece(room, at, &pieces[number]);
    }
    at
}

/// Writes the front of an actor's word and the name of its queue.
#[inline(always)]
fn put_queue(
    room: &mut [u8],
    at: usize,
    front: &[u8],
    plan: &Plan,
    words: &Spelled,
    queue: u32,
) -> usize
    requires short { length front.now ≤ 10 }
    requires room { at + 58 ≤ length room.old }
    requires spelled { AreSpelled plan.now words.now }
    ensures within { result ≤ at + 58 }
    ensures written { take result room.new
        ≡ take at room.old ++ (front.now ++ queue_name plan.now.script queue) }
{
    let at = put_word(room, at, front);
    put_name(room, at, plan, words, queue)
}

/// Writes a space and the word of an actor.
#[inline(always)]
fn put_actor(room: &mut [u8], at: usize, plan: &Plan, words: &Spelled, actor: ActorName) -> usize
    requires room { at + 58 ≤ length room.old }
    requires spelled { AreSpelled plan.now words.now }
    ensures within { result ≤ at + 58 }
    ensures written { take result room.new ≡ take at room.old ++ 32 ∷ actor_word plan.now.script actor }
{
    match actor {
        ActorName::Host => put_word(room, at, b" host"),
        ActorName::Submit(queue) => put_queue(room, at, b" S:", plan, words, queue),
        ActorName::Ring(queue) => put_queue(room, at, b" R:", plan, words, queue),
    }
}

/// Writes the number of a turn, a space and the word of its actor.
#[inline(always)]
fn put_front(
    room: &mut [u8],
    at: usize,
    turn: u32,
    plan: &Plan,
    words: &Spelled,
    actor: ActorName,
) -> usize
    requires room { at + 68 ≤ length room.old }
    requires spelled { AreSpelled plan.now words.now }
    ensures within { result ≤ at + 68 }
    ensures written { take result room.new
        ≡ take at room.old ++ (decimal turn ++ 32 ∷ actor_word plan.now.script actor) }
{
    let at = put_count(room, at, turn);
    put_actor(room, at, plan, words, actor)
}

/// Writes a line feed.
#[inline(always)]
fn put_end(room: &mut [u8], at: usize) -> usize
    requires { at + 1 ≤ length room.old }
    ensures end { result ≡ at + 1 }
    ensures written { take result room.new ≡ take at room.old ++ 10 ∷ [] }
{
    room[at] = b'\n';
    at + 1
}

/// Writes the line of a played turn.
pub(crate) fn put_turn(
    room: &mut [u8],
    at: usize,
    plan: &Plan,
    words: &Spelled,
    played: &Played,
) -> usize
    requires room { at + 160 ≤ length room.old }
    requires spelled { AreSpelled plan.now words.now }
    ensures within { result ≤ at + 160 }
    ensures written { take result room.new ≡ take at room.old ++ turn_line plan.now played.now }
{
    let at = put_front(room, at, played.number, plan, words, played.actor);
    let at = put_outcome(room, at, plan, words, played.outcome);
    put_end(room, at)
}
