//! What C reads of the batches of a queue.
ghost use Rattle.vq_layer_c.specs.Asked.{HasLooked};
ghost use Rattle.vq_layer_c.specs.Told.{signal_row, wait_row};
ghost use Rattle.vq_layer_c.specs.Read.{HasReadOf, batches_answer, released_answer, signals_of, token_answer, waits_of};

use crate::answer::{Answer, PointRow, said};
use crate::handle::Handle;
use crate::reading::{batches, released, signals, token, waits};
use crate::reply::Reply;

/// How many batches a queue has that aren't finished.
#[unsafe(no_mangle)]
pub extern "C" fn vq_layer_batches(layer: &mut Handle, queue: u32) -> Answer
    ensures { HasLooked (batches_answer queue) layer.old.value layer.new.value result }
{
    let slot = layer.slot();
    if slot.is_empty() {
        return said(Reply::NoHandle);
    }
    batches(slot.held(), queue)
}

/// How many of them are released.
#[unsafe(no_mangle)]
pub extern "C" fn vq_layer_released(layer: &mut Handle, queue: u32) -> Answer
    ensures { HasLooked (released_answer queue) layer.old.value layer.new.value result }
{
    let slot = layer.slot();
    if slot.is_empty() {
        return said(Reply::NoHandle);
    }
    released(slot.held(), queue)
}

/// The token of the batch in a place.
#[unsafe(no_mangle)]
pub extern "C" fn vq_layer_token(layer: &mut Handle, queue: u32, place: u64) -> Answer
    ensures { HasLooked (token_answer queue place) layer.old.value layer.new.value result }
{
    let slot = layer.slot();
    if slot.is_empty() {
        return said(Reply::NoHandle);
    }
    token(slot.held(), queue, place)
}

/// What the batch in a place waits for.
#[unsafe(no_mangle)]
pub extern "C" fn vq_layer_waits(
    layer: &mut Handle,
    queue: u32,
    place: u64,
    room: &mut [PointRow],
) -> Answer
    ensures { HasReadOf wait_row waits_of queue place room.old room.new layer.old.value layer.new.value result }
{
    let slot = layer.slot();
    if slot.is_empty() {
        return said(Reply::NoHandle);
    }
    waits(slot.held(), queue, place, room)
}

/// What the batch in a place signals.
#[unsafe(no_mangle)]
pub extern "C" fn vq_layer_signals(
    layer: &mut Handle,
    queue: u32,
    place: u64,
    room: &mut [PointRow],
) -> Answer
    ensures { HasReadOf signal_row signals_of queue place room.old room.new layer.old.value layer.new.value result }
{
    let slot = layer.slot();
    if slot.is_empty() {
        return said(Reply::NoHandle);
    }
    signals(slot.held(), queue, place, room)
}
