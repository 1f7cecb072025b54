//! What C calls to open and to close. A handle that holds no layer is answered by `NoHandle`, and nothing is done.
ghost use Rattle.std.specs.Prelude.{◌≡◌, None};
ghost use Rattle.vq_layer_c.specs.Answered.{HasClosed, HasOpened, HasOpenedBinary, HasOpenedQueue, HasOpenedTimeline};
ghost use Rattle.vq_layer_c.specs.Asked.{HasAsked};

use crate::answer::{Answer, said};
use crate::codes::call_code;
use crate::handle::Handle;
use crate::opening::{close_timeline, open_binary, open_queue, open_timeline, opened};
use crate::reply::Reply;
use std::alloc::Global;

/// The version of this face.
#[unsafe(no_mangle)]
pub extern "C" fn vq_layer_version() -> u32
    ensures { result ≡ 1 }
{
    1
}

/// Opens a layer with no timelines and no queues.
#[unsafe(no_mangle)]
pub extern "C" fn vq_layer_open(alloc: Global, layer: &mut *mut u8) -> u32
    ensures { HasOpened layer.old layer.new result }
{
    match opened(alloc) {
        Ok(live) => {
            *layer = Box::into_raw(live) as *mut u8;
            call_code(Reply::Done)
        }
        Err(_) => call_code(Reply::NoMemory),
    }
}

/// Ends the layer that is held, if one is, whatever it has, and gives back its memory.
#[unsafe(no_mangle)]
pub extern "C" fn vq_layer_close(layer: &mut Handle)
    ensures { layer.new.value ≡ None }
{
    drop(layer.slot().take());
}

/// Opens a timeline that has reached a value.
#[unsafe(no_mangle)]
pub extern "C" fn vq_layer_open_timeline(alloc: Global, layer: &mut Handle, initial: u64) -> Answer
    ensures { HasAsked (HasOpenedTimeline initial) layer.old.value layer.new.value result }
{
    let slot = layer.slot();
    if slot.is_empty() {
        return said(Reply::NoHandle);
    }
    open_timeline(slot.held(), alloc, initial)
}

/// Opens a binary semaphore or a fence, unsignaled or signaled once.
#[unsafe(no_mangle)]
pub extern "C" fn vq_layer_open_binary(alloc: Global, layer: &mut Handle, signaled: bool) -> Answer
    ensures { HasAsked (HasOpenedBinary signaled) layer.old.value layer.new.value result }
{
    let slot = layer.slot();
    if slot.is_empty() {
        return said(Reply::NoHandle);
    }
    open_binary(slot.held(), alloc, signaled)
}

/// Opens a queue.
#[unsafe(no_mangle)]
pub extern "C" fn vq_layer_open_queue(alloc: Global, layer: &mut Handle) -> Answer
    ensures { HasAsked HasOpenedQueue layer.old.value layer.new.value result }
{
    let slot = layer.slot();
    if slot.is_empty() {
        return said(Reply::NoHandle);
    }
    open_queue(slot.held(), alloc)
}

/// Closes a timeline, a binary semaphore or a fence.
#[unsafe(no_mangle)]
pub extern "C" fn vq_layer_close_timeline(
    alloc: Global,
    layer: &mut Handle,
    timeline: u32,
) -> Answer
    ensures { HasAsked (HasClosed timeline) layer.old.value layer.new.value result }
{
    let slot = layer.slot();
    if slot.is_empty() {
        return said(Reply::NoHandle);
    }
    close_timeline(slot.held(), alloc, timeline)
}
