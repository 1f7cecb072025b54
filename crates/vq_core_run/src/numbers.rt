//! The numbers by which callers from outside name actors.
//!
//! Source: this project's own.
ghost use Rattle.std.specs.Prelude.{◌≡◌, ◌+◌, ◌*◌, ◌↔◌, IsTrue, length};
ghost use Rattle.vq_core_run.specs.Driven.{actor_numbered, has_actor};

use vq_actor::queue_count;
use vq_model::script::{ActorName, Script};
use vq_order::Ordered;

/// The actor that a number stands for: 0 for the host, and for queue q the number 2q + 1 for its submit actor and
/// 2q + 2 for its ring.
pub fn actor_numbered(number: u32) -> ActorName
    ensures { result ≡ actor_numbered number }
{
    if number == 0 {
        return ActorName::Host;
    }
    let queue = (number - 1) / 2;
    if number % 2 == 1 {
        ActorName::Submit(queue)
    } else {
        ActorName::Ring(queue)
    }
}

/// How many numbers actors have. Not each has an actor: the host submits for a queue that isn't threaded.
pub fn actor_count(ordered: &Ordered) -> u64
    ensures { result ≡ 2 * length ordered.now.script.queues + 1 }
{
    2 * u64::from(queue_count(ordered)) + 1
}

/// Whether a script has an actor.
pub(crate) fn has_actor(script: &Script, actor: ActorName) -> bool
    ensures { result ≡ has_actor script.now actor }
{
    match actor {
        ActorName::Host => true,
        ActorName::Submit(queue) => script.is_threaded(queue),
        ActorName::Ring(queue) => (queue as usize) < script.queues.as_slice().len(),
    }
}
