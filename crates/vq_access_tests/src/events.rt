//! When two events are the same.
use vq_model::plan::Event;
use vq_model::script::ActorName;

/// An event in numbers: its kind, the kind of an actor and its number, and two numbers more.
type Numbers = (u32, u32, u32, u32, u32);

fn of_actor(actor: ActorName) -> (u32, u32) {
    match actor {
        ActorName::Host => (0, 0),
        ActorName::Submit(queue) => (1, queue),
        ActorName::Ring(queue) => (2, queue),
    }
}

/// The numbers of an event at a reference.
fn at_reference(kind: u32, actor: ActorName, point: u32, op: u32) -> Numbers {
    let (of, number) = of_actor(actor);
    (kind, of, number, point, op)
}

/// The numbers of a step of a job; none of another event.
fn of_job(event: Event) -> Option<Numbers> {
    match event {
        Event::Submit { job } => Some((0, 0, 0, job, 0)),
        Event::Release { job } => Some((1, 0, 0, job, 0)),
        Event::Start { job } => Some((2, 0, 0, job, 0)),
        Event::Finish { job } => Some((3, 0, 0, job, 0)),
        Event::Apply { job, command } => Some((4, 0, 0, job, command)),
        _ => None,
    }
}

/// The numbers of a step of the lists, or at a reference; none of another event. Answers are never taken for the
/// same.
fn of_lists(event: Event) -> Option<Numbers> {
    match event {
        Event::Take { op, point, fresh } => Some((5, 0, u32::from(fresh), point, op)),
        Event::Bind { op, point } => Some((6, 0, 0, point, op)),
        Event::Complete { op } => Some((7, 0, 0, op, 0)),
        Event::Free { point } => Some((8, 0, 0, point, 0)),
        Event::Signal { op } => Some((9, 0, 0, op, 0)),
        Event::Refer { actor, point, op } => Some(at_reference(10, actor, point, op)),
        Event::Look { actor, point, op } => Some(at_reference(11, actor, point, op)),
        Event::Unref { actor, point, op } => Some(at_reference(12, actor, point, op)),
        _ => None,
    }
}

fn are_same(one: Option<Numbers>, other: Option<Numbers>) -> bool {
    match (one, other) {
        (Some(one), Some(other)) => one == other,
        _ => false,
    }
}

/// Whether two events are the same.
pub(crate) fn is_same(one: Event, other: Event) -> bool {
    are_same(of_job(one), of_job(other)) || are_same(of_lists(one), of_lists(other))
}
