//! The answers in the place of those of a live layer.
ghost use Rattle.std.specs.Prelude.{◌≡◌};
ghost use Rattle.vq_layer_c.specs.Told.{blocked_told, close_told, found_told, given_told, missing_told, ready_told};
ghost use Rattle.vq_layer_c.specs.Told.{number_told, refer_told, release_told, reset_told, set_told, submit_fault_told};
ghost use Rattle.vq_layer_c.specs.Told.{take_back_told, take_fault_told, token_told, untaken_told, value_told};

use crate::answer::{Answer, said, told};
use crate::reply::Reply;
use vq_layer::{Blocked, CloseFault, ResetFault, SetFault, SubmitFault, TakeBackFault, Wanted};
use vq_live::{Found, Given, ReferFault, TakeFault};

/// Why no point is given for a value of a timeline.
fn take_fault_told(timeline: u32, fault: TakeFault) -> Answer
    ensures { result ≡ take_fault_told timeline fault }
{
    match fault {
        TakeFault::NotAbove { pending } => told(Reply::NotAbove, timeline, pending),
        TakeFault::Twice => told(Reply::Twice, timeline, 0),
        TakeFault::Full => told(Reply::Full, timeline, 0),
        TakeFault::NoMemory => said(Reply::NoMemory),
    }
}

/// Why a batch isn't submitted.
pub(crate) fn submit_fault_told(fault: SubmitFault) -> Answer
    ensures { result ≡ submit_fault_told fault }
{
    match fault {
        SubmitFault::NoQueue => said(Reply::NoQueue),
        SubmitFault::Full => said(Reply::TooManyWaits),
        SubmitFault::NoTimeline { timeline } => told(Reply::NoTimeline, timeline, 0),
        SubmitFault::Unsignaled { timeline } => told(Reply::Unsignaled, timeline, 0),
        SubmitFault::Signaled { timeline } => told(Reply::Signaled, timeline, 0),
        SubmitFault::Repeated { timeline } => told(Reply::Repeated, timeline, 0),
        SubmitFault::NotTaken { timeline, fault } => take_fault_told(timeline, fault),
        SubmitFault::NoMemory => said(Reply::NoMemory),
    }
}

/// The token of a batch that is taken back, or why it isn't.
pub(crate) fn take_back_told(fault: Option<TakeBackFault>, token: u64) -> Answer
    ensures { result ≡ take_back_told fault token }
{
    match fault {
        None => told(Reply::Done, 0, token),
        Some(TakeBackFault::NoQueue) => said(Reply::NoQueue),
        Some(TakeBackFault::Empty) => said(Reply::Empty),
        Some(TakeBackFault::Used { timeline }) => told(Reply::Used, timeline, 0),
    }
}

/// What a queue is blocked by, if it isn't ready.
pub(crate) fn blocked_told(cause: Option<Blocked>) -> Answer
    ensures { result ≡ blocked_told cause }
{
    release_told(cause, 0)
}

/// The place of a batch that is released, or what its queue is blocked by.
pub(crate) fn release_told(cause: Option<Blocked>, place: u64) -> Answer
    ensures { result ≡ release_told cause place }
{
    match cause {
        None => told(Reply::Done, 0, place),
        Some(Blocked::NoQueue) => said(Reply::NoQueue),
        Some(Blocked::Empty) => said(Reply::Empty),
        Some(Blocked::Waits { wanted }) => told(Reply::Waits, wanted.timeline, wanted.value),
        Some(Blocked::Behind { signal }) => {
            told(Reply::Behind, signal.timeline, signal.given.value)
        }
    }
}

/// A queue that is ready, if one is.
pub(crate) fn ready_told(queue: Option<u32>) -> Answer
    ensures { result ≡ ready_told queue }
{
    match queue {
        None => said(Reply::NoneReady),
        Some(queue) => told(Reply::Done, queue, 0),
    }
}

/// What a queue waits for that nothing signals, if there is such a value.
pub(crate) fn missing_told(wanted: Option<Wanted>) -> Answer
    ensures { result ≡ missing_told wanted }
{
    match wanted {
        None => said(Reply::Done),
        Some(wanted) => told(Reply::Missing, wanted.timeline, wanted.value),
    }
}

/// The token of a batch that is finished, if one is.
pub(crate) fn token_told(token: Option<u64>) -> Answer
    ensures { result ≡ token_told token }
{
    match token {
        None => said(Reply::NothingReleased),
        Some(token) => told(Reply::Done, 0, token),
    }
}

/// The number of what is opened.
pub(crate) fn number_told(number: Option<u32>) -> Answer
    ensures { result ≡ number_told number }
{
    match number {
        None => said(Reply::NoMemory),
        Some(number) => told(Reply::Done, number, 0),
    }
}

/// Why a timeline isn't closed, if it isn't.
pub(crate) fn close_told(fault: Option<CloseFault>) -> Answer
    ensures { result ≡ close_told fault }
{
    match fault {
        None => said(Reply::Done),
        Some(CloseFault::NoTimeline) => said(Reply::NoTimeline),
        Some(CloseFault::Named { queue }) => told(Reply::Named, queue, 0),
        Some(CloseFault::Held { point }) => told(Reply::Held, point, 0),
    }
}

/// The first pending operation, if there is one.
pub(crate) fn given_told(given: Option<Given>) -> Answer
    ensures { result ≡ given_told given }
{
    match given {
        None => said(Reply::NothingPending),
        Some(given) => told(Reply::Done, given.point, given.value),
    }
}

/// Where a value stands.
pub(crate) fn found_told(found: Found) -> Answer
    ensures { result ≡ found_told found }
{
    match found {
        Found::Past => said(Reply::Past),
        Found::Pending { at } => told(Reply::Pending, at.point, at.value),
        Found::NotYet => said(Reply::NotYet),
    }
}

/// Why a point isn't held, if it isn't.
pub(crate) fn refer_told(fault: Option<ReferFault>) -> Answer
    ensures { result ≡ refer_told fault }
{
    match fault {
        None => said(Reply::Done),
        Some(ReferFault::NotOut) => said(Reply::NotOut),
        Some(ReferFault::Full) => said(Reply::Full),
    }
}

/// Why the host's value isn't set, if it isn't.
pub(crate) fn set_told(fault: Option<SetFault>) -> Answer
    ensures { result ≡ set_told fault }
{
    match fault {
        None => said(Reply::Done),
        Some(SetFault::NoTimeline) => said(Reply::NoTimeline),
        Some(SetFault::NotAbove { payload }) => told(Reply::NotAbove, 0, payload),
        Some(SetFault::Outstanding { first }) => told(Reply::Outstanding, 0, first),
    }
}

/// A value of a timeline, if there is one.
pub(crate) fn value_told(value: Option<u64>) -> Answer
    ensures { result ≡ value_told value }
{
    match value {
        None => said(Reply::NoTimeline),
        Some(value) => told(Reply::Done, 0, value),
    }
}

/// The number of a signal that isn't taken, if there is one.
pub(crate) fn untaken_told(signal: Option<u64>) -> Answer
    ensures { result ≡ untaken_told signal }
{
    match signal {
        None => said(Reply::Unsignaled),
        Some(signal) => told(Reply::Done, 0, signal),
    }
}

/// Why a fence isn't reset, if it isn't.
pub(crate) fn reset_told(fault: Option<ResetFault>) -> Answer
    ensures { result ≡ reset_told fault }
{
    match fault {
        None => said(Reply::Done),
        Some(ResetFault::NoBinary) => said(Reply::NoBinary),
        Some(ResetFault::InUse) => said(Reply::InUse),
    }
}
