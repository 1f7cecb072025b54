//! What C calls of a queue.
ghost use Rattle.vq_layer_c.specs.Answered.{HasFinished, HasReleased, HasSubmitted, HasTakenBack};
ghost use Rattle.vq_layer_c.specs.Answered.{blocked_answer, next_answer, stuck_answer};
ghost use Rattle.vq_layer_c.specs.Asked.{HasAsked, HasLooked};

use crate::answer::{Answer, said};
use crate::handle::Handle;
use crate::queues::{finish, release, submit, take_back};
use crate::reply::Reply;
use crate::telling::{blocked_told, missing_told, ready_told};
use std::alloc::Global;
use vq_layer::Wanted;

/// Submits a batch.
#[unsafe(no_mangle)]
pub extern "C" fn vq_layer_submit(
    alloc: Global,
    layer: &mut Handle,
    queue: u32,
    token: u64,
    waits: &[Wanted],
    signals: &[Wanted],
) -> Answer
    ensures { HasAsked (HasSubmitted queue token waits.now signals.now) layer.old.value layer.new.value result }
{
    let slot = layer.slot();
    if slot.is_empty() {
        return said(Reply::NoHandle);
    }
    submit(slot.held(), alloc, queue, token, waits, signals)
}

/// Takes the batch back that was submitted last to a queue.
#[unsafe(no_mangle)]
pub extern "C" fn vq_layer_take_back(layer: &mut Handle, queue: u32) -> Answer
    ensures { HasAsked (HasTakenBack queue) layer.old.value layer.new.value result }
{
    let slot = layer.slot();
    if slot.is_empty() {
        return said(Reply::NoHandle);
    }
    take_back(slot.held(), queue)
}

/// What the first held-back batch of a queue is blocked by.
#[unsafe(no_mangle)]
pub extern "C" fn vq_layer_blocked(layer: &mut Handle, queue: u32) -> Answer
    ensures { HasLooked (blocked_answer queue) layer.old.value layer.new.value result }
{
    let slot = layer.slot();
    if slot.is_empty() {
        return said(Reply::NoHandle);
    }
    blocked_told(slot.held().blocked(queue))
}

/// The ready queue of least number.
#[unsafe(no_mangle)]
pub extern "C" fn vq_layer_next(layer: &mut Handle) -> Answer
    ensures { HasLooked next_answer layer.old.value layer.new.value result }
{
    let slot = layer.slot();
    if slot.is_empty() {
        return said(Reply::NoHandle);
    }
    ready_told(slot.held().next())
}

/// What the first held-back batch of a queue waits for and nothing signals.
#[unsafe(no_mangle)]
pub extern "C" fn vq_layer_stuck(layer: &mut Handle, queue: u32) -> Answer
    ensures { HasLooked (stuck_answer queue) layer.old.value layer.new.value result }
{
    let slot = layer.slot();
    if slot.is_empty() {
        return said(Reply::NoHandle);
    }
    missing_told(slot.held().stuck(queue))
}

/// Releases the first held-back batch of a queue.
#[unsafe(no_mangle)]
pub extern "C" fn vq_layer_release(layer: &mut Handle, queue: u32) -> Answer
    ensures { HasAsked (HasReleased queue) layer.old.value layer.new.value result }
{
    let slot = layer.slot();
    if slot.is_empty() {
        return said(Reply::NoHandle);
    }
    release(slot.held(), queue)
}

/// Finishes the oldest released batch of a queue.
#[unsafe(no_mangle)]
pub extern "C" fn vq_layer_finish(layer: &mut Handle, queue: u32) -> Answer
    ensures { HasAsked (HasFinished queue) layer.old.value layer.new.value result }
{
    let slot = layer.slot();
    if slot.is_empty() {
        return said(Reply::NoHandle);
    }
    finish(slot.held(), queue)
}
