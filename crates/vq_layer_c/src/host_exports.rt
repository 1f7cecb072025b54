//! What C calls of one timeline, binary semaphore or fence.
ghost use Rattle.vq_layer_c.specs.Answered.{HasCompleted, HasReferred, HasReset, HasReturned, HasSignaled};
ghost use Rattle.vq_layer_c.specs.Answered.{find_answer, first_answer, pending_value_answer, untaken_answer, value_answer};
ghost use Rattle.vq_layer_c.specs.Asked.{HasAsked, HasLooked};

use crate::answer::{Answer, said};
use crate::handle::Handle;
use crate::host::{find, refer, reset, signal, unref};
use crate::reply::Reply;
use crate::telling::{given_told, untaken_told, value_told};

/// The first pending operation.
#[unsafe(no_mangle)]
pub extern "C" fn vq_layer_first(layer: &mut Handle, timeline: u32) -> Answer
    ensures { HasLooked (first_answer timeline) layer.old.value layer.new.value result }
{
    let slot = layer.slot();
    if slot.is_empty() {
        return said(Reply::NoHandle);
    }
    given_told(slot.held().first(timeline))
}

/// Completes the first pending operation.
#[unsafe(no_mangle)]
pub extern "C" fn vq_layer_complete(layer: &mut Handle, timeline: u32) -> Answer
    ensures { HasAsked (HasCompleted timeline) layer.old.value layer.new.value result }
{
    let slot = layer.slot();
    if slot.is_empty() {
        return said(Reply::NoHandle);
    }
    given_told(slot.held().complete(timeline))
}

/// Where a value stands.
#[unsafe(no_mangle)]
pub extern "C" fn vq_layer_find(layer: &mut Handle, timeline: u32, value: u64) -> Answer
    ensures { HasLooked (find_answer timeline value) layer.old.value layer.new.value result }
{
    let slot = layer.slot();
    if slot.is_empty() {
        return said(Reply::NoHandle);
    }
    find(slot.held(), timeline, value)
}

/// Holds a point that carries an operation.
#[unsafe(no_mangle)]
pub extern "C" fn vq_layer_refer(layer: &mut Handle, timeline: u32, point: u32) -> Answer
    ensures { HasAsked (HasReferred timeline point) layer.old.value layer.new.value result }
{
    let slot = layer.slot();
    if slot.is_empty() {
        return said(Reply::NoHandle);
    }
    refer(slot.held(), timeline, point)
}

/// Gives a reference to a point back.
#[unsafe(no_mangle)]
pub extern "C" fn vq_layer_unref(layer: &mut Handle, timeline: u32, point: u32) -> Answer
    ensures { HasAsked (HasReturned timeline point) layer.old.value layer.new.value result }
{
    let slot = layer.slot();
    if slot.is_empty() {
        return said(Reply::NoHandle);
    }
    unref(slot.held(), timeline, point)
}

/// The host sets the value of a timeline.
#[unsafe(no_mangle)]
pub extern "C" fn vq_layer_signal(layer: &mut Handle, timeline: u32, value: u64) -> Answer
    ensures { HasAsked (HasSignaled timeline value) layer.old.value layer.new.value result }
{
    let slot = layer.slot();
    if slot.is_empty() {
        return said(Reply::NoHandle);
    }
    signal(slot.held(), timeline, value)
}

/// The value that a timeline has reached.
#[unsafe(no_mangle)]
pub extern "C" fn vq_layer_value(layer: &mut Handle, timeline: u32) -> Answer
    ensures { HasLooked (value_answer timeline) layer.old.value layer.new.value result }
{
    let slot = layer.slot();
    if slot.is_empty() {
        return said(Reply::NoHandle);
    }
    value_told(slot.held().value(timeline))
}

/// The value of the last pending operation, or the one that is reached.
#[unsafe(no_mangle)]
pub extern "C" fn vq_layer_pending_value(layer: &mut Handle, timeline: u32) -> Answer
    ensures { HasLooked (pending_value_answer timeline) layer.old.value layer.new.value result }
{
    let slot = layer.slot();
    if slot.is_empty() {
        return said(Reply::NoHandle);
    }
    value_told(slot.held().pending_value(timeline))
}

/// The signal of a binary semaphore or a fence that isn't taken.
#[unsafe(no_mangle)]
pub extern "C" fn vq_layer_untaken(layer: &mut Handle, timeline: u32) -> Answer
    ensures { HasLooked (untaken_answer timeline) layer.old.value layer.new.value result }
{
    let slot = layer.slot();
    if slot.is_empty() {
        return said(Reply::NoHandle);
    }
    untaken_told(slot.held().untaken(timeline))
}

/// Resets a fence.
#[unsafe(no_mangle)]
pub extern "C" fn vq_layer_reset(layer: &mut Handle, fence: u32) -> Answer
    ensures { HasAsked (HasReset fence) layer.old.value layer.new.value result }
{
    let slot = layer.slot();
    if slot.is_empty() {
        return said(Reply::NoHandle);
    }
    reset(slot.held(), fence)
}
