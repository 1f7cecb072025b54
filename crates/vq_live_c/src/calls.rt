//! The calls of a live timeline through its slot. Where it holds none, there is no answer.
ghost use Rattle.std.specs.Prelude.{◌≡◌, IfOk};
ghost use Rattle.vq_live.specs.Live.{opened};
ghost use Rattle.vq_live_c.specs.Answered.{HasReturned, HasSought, HasTaken, HasTriedCancel, HasTriedComplete};
ghost use Rattle.vq_live_c.specs.Answered.{HasTriedInstall, HasTriedRefer, HasTriedSignal, IsFirst, IsLeastTaken};
ghost use Rattle.vq_live_c.specs.Asked.{HasAsked, payload_of};
ghost use Rattle.vq_live_c.specs.Codes.{call_code};

use crate::reply::Reply;
use std::alloc::{AllocError, Global};
use vq_live::{
    CancelFault, Found, Given, Held, InstallFault, LiveTimeline, ReferFault, SignalFault, TakeFault,
};
use vq_loose::Slot;

/// A timeline that reached a value, in a box of its own. The error is want of memory.
pub(crate) fn opened(alloc: Global, initial: u64) -> Result<Box<LiveTimeline>, AllocError>
    ensures { IfOk result (λ live. live.value ≡ opened initial) }
{
    match Box::new(alloc, LiveTimeline::new(alloc, initial)) {
        Ok(live) => Ok(live),
        Err(_) => Err(AllocError),
    }
}

/// Takes a point for a value.
pub(crate) fn taken(slot: &mut Slot<LiveTimeline>, value: u64) -> Option<Result<Given, TakeFault>>
    ensures { HasAsked (λ t u a. HasTaken t u value a) slot.old.value slot.new.value result }
{
    if slot.is_empty() {
        return None;
    }
    Some(slot.held().take(value))
}

/// Installs an operation: why it wasn't, if it wasn't.
pub(crate) fn installed(slot: &mut Slot<LiveTimeline>, given: Given) -> Option<Option<InstallFault>>
    ensures { HasAsked (λ t u a. HasTriedInstall t given u a) slot.old.value slot.new.value result }
{
    if slot.is_empty() {
        return None;
    }
    Some(slot.held().install(given).err())
}

/// Takes an operation back: why it wasn't, if it wasn't.
pub(crate) fn cancelled(slot: &mut Slot<LiveTimeline>, given: Given) -> Option<Option<CancelFault>>
    ensures { HasAsked (λ t u a. HasTriedCancel t given u a) slot.old.value slot.new.value result }
{
    if slot.is_empty() {
        return None;
    }
    Some(slot.held().cancel(given).err())
}

/// Completes the first pending operation, if there is one.
pub(crate) fn completed(slot: &mut Slot<LiveTimeline>) -> Option<Option<Given>>
    ensures { HasAsked (λ t u a. HasTriedComplete t u a) slot.old.value slot.new.value result }
{
    if slot.is_empty() {
        return None;
    }
    Some(slot.held().complete())
}

/// Where a value stands.
pub(crate) fn sought(slot: &mut Slot<LiveTimeline>, value: u64) -> Option<Found>
    ensures { HasAsked (λ t u a. HasSought t value u a) slot.old.value slot.new.value result }
{
    if slot.is_empty() {
        return None;
    }
    Some(slot.held().find(value))
}

/// Holds a point: why it isn't held, if it isn't. The reference is the caller's as the point's number.
fn refer(live: &mut LiveTimeline, point: u32) -> Option<ReferFault>
    ensures { HasTriedRefer live.old point live.new result }
{
    match live.refer(point) {
        Ok(reference) => {
            // the header makes it the caller's duty to give it back
            let _number = unsafe { reference.into_point() };
            None
        }
        Err(fault) => Some(fault),
    }
}

/// The same, of the timeline that is held.
pub(crate) fn referred(slot: &mut Slot<LiveTimeline>, point: u32) -> Option<Option<ReferFault>>
    ensures { HasAsked (λ t u a. HasTriedRefer t point u a) slot.old.value slot.new.value result }
{
    if slot.is_empty() {
        return None;
    }
    Some(refer(slot.held(), point))
}

/// Gives a reference back. The reply is `Done` or `NotHeld`.
fn unref(live: &mut LiveTimeline, point: u32) -> Reply
    ensures { HasReturned live.old live.new point (call_code result) }
{
    // the header makes it the caller's duty that the number is of a reference of its own
    let reference = unsafe { Held::from_point(point) };
    match live.unref(reference) {
        Ok(()) => Reply::Done,
        Err(reference) => {
            // it stood for no reference
            let _number = unsafe { reference.into_point() };
            Reply::NotHeld
        }
    }
}

/// The same, of the timeline that is held.
pub(crate) fn returned(slot: &mut Slot<LiveTimeline>, point: u32) -> Option<Reply>
    ensures { HasAsked (λ t u a. HasReturned t u point (call_code a)) slot.old.value slot.new.value result }
{
    if slot.is_empty() {
        return None;
    }
    Some(unref(slot.held(), point))
}

/// The host's signal: why the value isn't set, if it isn't.
pub(crate) fn signaled(slot: &mut Slot<LiveTimeline>, value: u64) -> Option<Option<SignalFault>>
    ensures { HasAsked (λ t u a. HasTriedSignal t value u a) slot.old.value slot.new.value result }
{
    if slot.is_empty() {
        return None;
    }
    Some(slot.held().signal(value).err())
}

/// The value that is reached, 0 where no timeline is held.
pub(crate) fn reached(slot: &mut Slot<LiveTimeline>) -> u64
    ensures same { slot.new.value ≡ slot.old.value }
    ensures value { result ≡ payload_of slot.old.value }
{
    if slot.is_empty() {
        return 0;
    }
    slot.held().value()
}

/// The first pending operation.
pub(crate) fn first(slot: &mut Slot<LiveTimeline>) -> Option<Option<Given>>
    ensures { HasAsked (λ t u a. IsFirst t u a) slot.old.value slot.new.value result }
{
    if slot.is_empty() {
        return None;
    }
    Some(slot.held().first())
}

/// The taken operation of least value.
pub(crate) fn least_taken(slot: &mut Slot<LiveTimeline>) -> Option<Option<Given>>
    ensures { HasAsked (λ t u a. IsLeastTaken t u a) slot.old.value slot.new.value result }
{
    if slot.is_empty() {
        return None;
    }
    Some(slot.held().least_taken())
}
