//! The actors of a round.
ghost use Rattle.std.specs.Prelude.{◌≡◌, ◌++◌, ◌∷◌, [], filter, map, IfOk, OnOk};
ghost use Rattle.std.specs.List.{range_with_len};
ghost use Rattle.vq_model.specs.ValidScripts.{is_threaded_queue};
ghost use Rattle.vq_model.specs.declared.script.ActorName.{ActorName as Name};
ghost use Rattle.vq_progress_laws.specs.Movers.{round};

use std::alloc::{AllocError, Global};
use vq_actor::queue_count;
use vq_model::script::{ActorName, Script};
use vq_order::Ordered;

/// Adds the submit actor of a queue, if the queue is threaded: the host serves the others.
fn push_submit(actors: &mut Vec<ActorName>, script: &Script, queue: u32) -> Result<(), AllocError>
    ensures { OnOk result (actors.new.items ≡ actors.old.items
        ++ map Name.Submit (filter (is_threaded_queue script.now) (queue ∷ []))) }
{
    if script.is_threaded(queue) {
        actors.push(ActorName::Submit(queue))?;
    }
    Ok(())
}

/// Adds the submit actor of each threaded queue, in the order of the queues.
fn push_submits(actors: &mut Vec<ActorName>, script: &Script, queues: u32) -> Result<(), AllocError>
    ensures { OnOk result (actors.new.items ≡ actors.old.items
        ++ map Name.Submit (filter (is_threaded_queue script.now) (range_with_len 0 queues))) }
{
    for queue in 0..queues {
        push_submit(actors, script, queue)?;
    }
    Ok(())
}

/// Adds the ring of each queue, in the order of the queues.
fn push_rings(actors: &mut Vec<ActorName>, queues: u32) -> Result<(), AllocError>
    ensures { OnOk result (actors.new.items ≡ actors.old.items ++ map Name.Ring (range_with_len 0 queues)) }
{
    for queue in 0..queues {
        actors.push(ActorName::Ring(queue))?;
    }
    Ok(())
}

/// The actors of a round, in the order of their turns: the host, then the submit actor of each threaded queue, then
/// the ring of each queue.
pub(crate) fn roster(alloc: Global, ordered: &Ordered) -> Result<Vec<ActorName>, AllocError>
    ensures { IfOk result (λ actors. actors.items ≡ round ordered.now) }
{
    let queues = queue_count(ordered);
    let mut actors = Vec::new(alloc);
    actors.push(ActorName::Host)?;
    push_submits(&mut actors, ordered.plan().script(), queues)?;
    push_rings(&mut actors, queues)?;
    Ok(actors)
}
