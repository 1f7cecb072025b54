//! Opening and closing, in an answer.
ghost use Rattle.std.specs.Prelude.{◌≡◌, IfOk};
ghost use Rattle.vq_layer.specs.Layer.{no_layer};
ghost use Rattle.vq_layer_c.specs.Answered.{HasClosed, HasOpenedBinary, HasOpenedQueue, HasOpenedTimeline};

use crate::answer::Answer;
use crate::telling::{close_told, number_told};
use std::alloc::{AllocError, Global};
use vq_layer::LiveLayer;

/// A layer with no timelines and no queues, in a box of its own. The error is want of memory.
pub(crate) fn opened(alloc: Global) -> Result<Box<LiveLayer>, AllocError>
    ensures { IfOk result (λ layer. layer.value ≡ no_layer) }
{
    match Box::new(alloc, LiveLayer::new(alloc)) {
        Ok(layer) => Ok(layer),
        Err(_) => Err(AllocError),
    }
}

/// Opens a timeline that has reached this value.
pub(crate) fn open_timeline(layer: &mut LiveLayer, alloc: Global, initial: u64) -> Answer
    ensures { HasOpenedTimeline initial layer.old layer.new result }
{
    number_told(layer.open_timeline(alloc, initial).ok())
}

/// Opens a binary semaphore or a fence.
pub(crate) fn open_binary(layer: &mut LiveLayer, alloc: Global, signaled: bool) -> Answer
    ensures { HasOpenedBinary signaled layer.old layer.new result }
{
    number_told(layer.open_binary(alloc, signaled).ok())
}

/// Opens a queue.
pub(crate) fn open_queue(layer: &mut LiveLayer, alloc: Global) -> Answer
    ensures { HasOpenedQueue layer.old layer.new result }
{
    number_told(layer.open_queue(alloc).ok())
}

/// Closes a timeline, a binary semaphore or a fence.
pub(crate) fn close_timeline(layer: &mut LiveLayer, alloc: Global, timeline: u32) -> Answer
    ensures { HasClosed timeline layer.old layer.new result }
{
    close_told(layer.close(alloc, timeline).err())
}
