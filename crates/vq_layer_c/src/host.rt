//! What the host does with one timeline, in an answer.
ghost use Rattle.std.specs.Prelude.{◌≡◌};
ghost use Rattle.vq_layer_c.specs.Answered.{HasReferred, HasReset, HasReturned, HasSignaled, find_answer};

use crate::answer::{Answer, said};
use crate::reply::Reply;
use crate::telling::{found_told, refer_told, reset_told, set_told};
use vq_layer::LiveLayer;
use vq_live::Held;

/// Where a value stands.
pub(crate) fn find(layer: &LiveLayer, timeline: u32, value: u64) -> Answer
    ensures { result ≡ find_answer timeline value layer.now }
{
    match layer.value(timeline) {
        Some(_) => found_told(layer.find(timeline, value)),
        None => said(Reply::NoTimeline),
    }
}

/// Holds a point. The reference is the caller's as the point's number.
pub(crate) fn refer(layer: &mut LiveLayer, timeline: u32, point: u32) -> Answer
    ensures { HasReferred timeline point layer.old layer.new result }
{
    match layer.refer(timeline, point) {
        Ok(reference) => {
            // the header makes it the caller's duty to give it back
            let _number = unsafe { reference.into_point() };
            refer_told(None)
        }
        Err(fault) => refer_told(Some(fault)),
    }
}

/// Gives a reference back.
pub(crate) fn unref(layer: &mut LiveLayer, timeline: u32, point: u32) -> Answer
    ensures { HasReturned timeline point layer.old layer.new result }
{
    // the header makes it the caller's duty that the number is of a reference of its own
    let reference = unsafe { Held::from_point(point) };
    match layer.unref(timeline, reference) {
        Ok(()) => said(Reply::Done),
        Err(reference) => {
            // it stood for no reference
            let _number = unsafe { reference.into_point() };
            said(Reply::NotHeld)
        }
    }
}

/// Sets the value of a timeline.
pub(crate) fn signal(layer: &mut LiveLayer, timeline: u32, value: u64) -> Answer
    ensures { HasSignaled timeline value layer.old layer.new result }
{
    set_told(layer.signal(timeline, value).err())
}

/// Resets a fence.
pub(crate) fn reset(layer: &mut LiveLayer, fence: u32) -> Answer
    ensures { HasReset fence layer.old layer.new result }
{
    reset_told(layer.reset(fence).err())
}
