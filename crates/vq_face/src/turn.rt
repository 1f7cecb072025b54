//! What crosses to C of a turn.
//!
//! Source: this project's own.
ghost use Rattle.std.specs.Prelude.{◌≡◌, if◌then◌else◌};
ghost use Rattle.vq_face.specs.Kinds.{answer_code};
ghost use Rattle.vq_face.specs.Turns.{answer_number, at_job, at_op, at_point, blank, event_turn};
ghost use Rattle.vq_face.specs.Turns.{reply_of, told, want_turn};

use crate::kinds::{answer_code, event_code, want_code};
use crate::reply::Reply;
use vq_model::plan::{Answer, Event};
use vq_turns::outcome::{Outcome, Want};

/// The number of no job, operation, point or command.
const NONE: u32 = u32::MAX;

/// What a turn made, or what the actor waits for: its kind, and the numbers that it speaks of.
#[repr(C)]
#[derive(Clone, Copy)]
pub struct Turn {
    pub kind: u32,
    pub job: u32,
    pub op: u32,
    pub point: u32,
    pub command: u32,
    pub more: u32,
    pub value: u64,
}

/// A turn of a kind, without numbers.
fn blank(kind: u32) -> Turn
    ensures { result ≡ blank kind }
{
    Turn {
        kind,
        job: NONE,
        op: NONE,
        point: NONE,
        command: NONE,
        more: 0,
        value: 0,
    }
}

/// A turn that speaks of a job.
fn at_job(kind: u32, job: u32) -> Turn
    ensures { result ≡ at_job kind job }
{
    let mut turn = blank(kind);
    turn.job = job;
    turn
}

/// A turn that speaks of a signal operation.
fn at_op(kind: u32, op: u32) -> Turn
    ensures { result ≡ at_op kind op }
{
    let mut turn = blank(kind);
    turn.op = op;
    turn
}

/// A turn that speaks of a signal operation and a point.
fn at_point(kind: u32, op: u32, point: u32) -> Turn
    ensures { result ≡ at_point kind op point }
{
    let mut turn = at_op(kind, op);
    turn.point = point;
    turn
}

/// The payload that was read, 0 for another answer.
pub(crate) fn answer_number(answer: Answer) -> u64
    ensures { result ≡ answer_number answer }
{
    match answer {
        Answer::Value(value) => value,
        Answer::Reached => 0,
        Answer::Timeout => 0,
        Answer::NotReady => 0,
    }
}

/// A taking of a point; `more` is 1 where the point is new.
fn take_turn(kind: u32, op: u32, point: u32, fresh: bool) -> Turn
    ensures { result ≡ record (at_point kind op point) { more = if fresh then 1 else 0 } }
{
    let mut turn = at_point(kind, op, point);
    turn.more = u32::from(fresh);
    turn
}

/// A freeing of a point.
fn free_turn(kind: u32, point: u32) -> Turn
    ensures { result ≡ record (blank kind) { point = point } }
{
    let mut turn = blank(kind);
    turn.point = point;
    turn
}

/// A command that a job applied.
fn apply_turn(kind: u32, job: u32, command: u32) -> Turn
    ensures { result ≡ record (at_job kind job) { command = command } }
{
    let mut turn = at_job(kind, job);
    turn.command = command;
    turn
}

/// An answer of a job; `more` is the answer's code.
fn answer_turn(kind: u32, job: u32, answer: Answer) -> Turn
    ensures { result ≡ record (at_job kind job) { more = answer_code answer; value = answer_number answer } }
{
    let mut turn = at_job(kind, job);
    turn.more = answer_code(answer);
    turn.value = answer_number(answer);
    turn
}

/// What crosses of an event.
fn event_turn(event: Event) -> Turn
    ensures { result ≡ event_turn event }
{
    let kind = event_code(event);
    match event {
        Event::Submit { job } => at_job(kind, job),
        Event::Take { op, point, fresh } => take_turn(kind, op, point, fresh),
        Event::Release { job } => at_job(kind, job),
        Event::Bind { op, point } => at_point(kind, op, point),
        Event::Refer { point, op, .. } => at_point(kind, op, point),
        Event::Look { point, op, .. } => at_point(kind, op, point),
        Event::Unref { point, op, .. } => at_point(kind, op, point),
        Event::Complete { op } => at_op(kind, op),
        Event::Free { point } => free_turn(kind, point),
        Event::Start { job } => at_job(kind, job),
        Event::Apply { job, command } => apply_turn(kind, job, command),
        Event::Signal { op } => at_op(kind, op),
        Event::Finish { job } => at_job(kind, job),
        Event::Answer { job, answer } => answer_turn(kind, job, answer),
    }
}

/// What crosses of a want.
fn want_turn(want: Want) -> Turn
    ensures { result ≡ want_turn want }
{
    let kind = want_code(want);
    match want {
        Want::Submitted { job } => at_job(kind, job),
        Want::Released { job } => at_job(kind, job),
        Want::Bound { op } => at_op(kind, op),
        Want::Next { op } => at_op(kind, op),
        Want::Signaled { op } => at_op(kind, op),
        Want::Finished { job } => at_job(kind, job),
        Want::MemoryTurn => blank(kind),
        Want::Exchange { op, .. } => at_op(kind, op),
        Want::Listed { op } => at_op(kind, op),
    }
}

/// What a call answers that took a turn.
pub fn reply_of(outcome: Outcome) -> Reply
    ensures { result ≡ reply_of outcome }
{
    match outcome {
        Outcome::Moved(_) => Reply::Moved,
        Outcome::Blocked(_) => Reply::Blocked,
        Outcome::Ended => Reply::Ended,
    }
}

/// What crosses of the outcome of a turn; of one that has ended nothing, and what was there stays.
pub fn told(outcome: Outcome, before: Turn) -> Turn
    ensures { result ≡ told outcome before }
{
    match outcome {
        Outcome::Moved(event) => event_turn(event),
        Outcome::Blocked(want) => want_turn(want),
        Outcome::Ended => before,
    }
}
