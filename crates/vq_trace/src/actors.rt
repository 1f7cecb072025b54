//! Who may make an event.
ghost use Rattle.std.specs.Prelude.{◌≡◌, ◌&&◌, not};
ghost use Rattle.vq_model.specs.Naming.{same_actor};
ghost use Rattle.vq_model.specs.Plan.{job_of};
ghost use Rattle.vq_given.specs.Words.{actor_said, is_for_op, is_ring, is_submit_actor, may_make, mover, runner};
ghost use Rattle.vq_trace.specs.PlanIndex.{IsIndexOf};

use crate::index::Index;
use vq_lexer::{after_mark, is_marked};
use vq_model::plan::{Event, Lane};
use vq_model::script::ActorName;
use vq_spec::Plan;

/// The actor of a word.
pub(crate) fn actor_said(plan: &Plan, index: &Index, word: &[u8]) -> Option<ActorName>
    requires { IsIndexOf plan.now index.now }
    ensures { result ≡ actor_said plan.now word.now }
{
    if word == b"host".as_slice() {
        return Some(ActorName::Host);
    }
    if is_marked(b'S', word) {
        return Some(ActorName::Submit(index.queue(plan, after_mark(word))?));
    }
    if is_marked(b'R', word) {
        return Some(ActorName::Ring(index.queue(plan, after_mark(word))?));
    }
    None
}

/// Whether two actors are the same.
fn same_actor(one: ActorName, other: ActorName) -> bool
    ensures { result ≡ same_actor one other }
{
    match (one, other) {
        (ActorName::Host, ActorName::Host) => true,
        (ActorName::Submit(queue), ActorName::Submit(other_queue)) => queue == other_queue,
        (ActorName::Ring(queue), ActorName::Ring(other_queue)) => queue == other_queue,
        _ => false,
    }
}

/// The host, or a queue's submit actor, that takes points for a job, releases it and binds it.
fn mover(plan: &Plan, job: u32) -> ActorName
    ensures { result ≡ mover plan.now job }
{
    if job >= plan.jobs() {
        return ActorName::Host;
    }
    match plan.job(job).lane {
        Lane::Host => ActorName::Host,
        Lane::Queue(queue) => {
            if plan.script().is_threaded(queue) {
                ActorName::Submit(queue)
            } else {
                ActorName::Host
            }
        }
    }
}

/// The actor in whose lane a job runs.
fn runner(plan: &Plan, job: u32) -> ActorName
    ensures { result ≡ runner plan.now job }
{
    if job >= plan.jobs() {
        return ActorName::Host;
    }
    match plan.job(job).lane {
        Lane::Host => ActorName::Host,
        Lane::Queue(queue) => ActorName::Ring(queue),
    }
}

/// The job of a signal operation.
fn job_of(plan: &Plan, op: u32) -> Option<u32>
    ensures { result ≡ job_of plan.now op }
{
    if op < plan.ops() {
        Some(plan.op(op).job)
    } else {
        None
    }
}

/// Whether an actor moves the job of a signal operation.
fn moves_op(plan: &Plan, actor: ActorName, op: u32) -> bool
    ensures { result ≡ is_for_op mover plan.now actor op }
{
    match job_of(plan, op) {
        Some(job) => same_actor(actor, mover(plan, job)),
        None => false,
    }
}

/// Whether an actor runs the job of a signal operation.
fn runs_op(plan: &Plan, actor: ActorName, op: u32) -> bool
    ensures { result ≡ is_for_op runner plan.now actor op }
{
    match job_of(plan, op) {
        Some(job) => same_actor(actor, runner(plan, job)),
        None => false,
    }
}

fn is_ring(actor: ActorName) -> bool
    ensures { result ≡ is_ring actor }
{
    matches!(actor, ActorName::Ring(_))
}

fn is_submit_actor(actor: ActorName) -> bool
    ensures { result ≡ is_submit_actor actor }
{
    matches!(actor, ActorName::Submit(_))
}

/// Whether an actor makes an event on a reference, which is this actor's.
fn refers(actor: ActorName, holder: ActorName) -> bool
    ensures { result ≡ (same_actor actor holder && not (is_submit_actor actor)) }
{
    same_actor(actor, holder) && !is_submit_actor(actor)
}

/// Whether an actor may make an event.
pub(crate) fn may_make(plan: &Plan, actor: ActorName, event: Event) -> bool
    ensures { result ≡ may_make plan.now actor event }
{
    match event {
        Event::Submit { .. } => same_actor(actor, ActorName::Host),
        Event::Take { op, .. } => moves_op(plan, actor, op),
        Event::Release { job } => same_actor(actor, mover(plan, job)),
        Event::Bind { op, .. } => moves_op(plan, actor, op),
        Event::Refer { actor: holder, .. } => refers(actor, holder),
        Event::Look { actor: holder, .. } => refers(actor, holder),
        Event::Unref { actor: holder, .. } => refers(actor, holder),
        Event::Complete { .. } => !is_ring(actor),
        Event::Free { .. } => !is_ring(actor),
        Event::Start { job } => same_actor(actor, runner(plan, job)),
        Event::Apply { job, .. } => same_actor(actor, runner(plan, job)),
        Event::Signal { op } => runs_op(plan, actor, op),
        Event::Finish { job } => same_actor(actor, runner(plan, job)),
        Event::Answer { job, .. } => same_actor(actor, runner(plan, job)),
    }
}
