//! What becomes of batches, in an answer.
ghost use Rattle.std.specs.Prelude.{◌≡◌, length};
ghost use Rattle.vq_layer.specs.Layer.{queue_at};
ghost use Rattle.vq_layer_c.specs.Answered.{HasFinished, HasReleased, HasSubmitted, HasTakenBack};

use crate::answer::{Answer, told};
use crate::reply::Reply;
use crate::telling::{release_told, submit_fault_told, take_back_told, token_told};
use std::alloc::Global;
use vq_layer::{LiveLayer, Wanted};

/// How many batches a queue has that aren't finished; none where there is no such queue.
#[tactic(auto, using(crate::proofs::Lookups::no_such_queue))]
fn batch_count(layer: &LiveLayer, queue: u32) -> u64
    ensures { result ≡ length (queue_at layer.now.queues queue).batches }
{
    match layer.queue(queue) {
        Some(queue) => queue.batch_count() as u64,
        None => 0,
    }
}

/// How many of them are released.
#[tactic(auto, using(crate::proofs::Lookups::no_such_queue))]
fn released_count(layer: &LiveLayer, queue: u32) -> u64
    ensures { result ≡ (queue_at layer.now.queues queue).released }
{
    match layer.queue(queue) {
        Some(queue) => queue.released_count() as u64,
        None => 0,
    }
}

/// Submits a batch.
pub(crate) fn submit(
    layer: &mut LiveLayer,
    alloc: Global,
    queue: u32,
    token: u64,
    waits: &[Wanted],
    signals: &[Wanted],
) -> Answer
    ensures { HasSubmitted queue token waits.now signals.now layer.old layer.new result }
{
    let place = batch_count(layer, queue);
    match layer.submit(alloc, queue, token, waits, signals) {
        Ok(()) => told(Reply::Done, 0, place),
        Err(fault) => submit_fault_told(fault),
    }
}

/// Takes the batch back that was submitted last.
pub(crate) fn take_back(layer: &mut LiveLayer, queue: u32) -> Answer
    ensures { HasTakenBack queue layer.old layer.new result }
{
    match layer.take_back(queue) {
        Ok(token) => take_back_told(None, token),
        Err(fault) => take_back_told(Some(fault), 0),
    }
}

/// Releases the first held-back batch.
pub(crate) fn release(layer: &mut LiveLayer, queue: u32) -> Answer
    ensures { HasReleased queue layer.old layer.new result }
{
    let place = released_count(layer, queue);
    release_told(layer.release(queue).err(), place)
}

/// Finishes the oldest released batch.
pub(crate) fn finish(layer: &mut LiveLayer, queue: u32) -> Answer
    ensures { HasFinished queue layer.old layer.new result }
{
    token_told(layer.finish(queue))
}
