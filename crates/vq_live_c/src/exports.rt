//! What C calls. A handle that holds no timeline is answered by `NoHandle`, and nothing is done.
ghost use Rattle.std.specs.Prelude.{◌≡◌, None};
ghost use Rattle.vq_live_c.specs.Answered.{HasCancelled, HasCompleted, HasFound, HasGiven, HasInstalled, HasOpened};
ghost use Rattle.vq_live_c.specs.Answered.{HasReferred, HasReturned, HasSignaled, HasToldFirst, HasToldLeast};
ghost use Rattle.vq_live_c.specs.Asked.{HasAnswered, payload_of};
ghost use Rattle.vq_live_c.specs.Told.{given_of};

use crate::calls::{
    cancelled, completed, first, installed, least_taken, opened, reached, referred, returned,
    signaled, sought, taken,
};
use crate::codes::{call_code, find_code};
use crate::handle::Handle;
use crate::reply::Reply;
use crate::rows::{
    GivenRow, cancel_answer, given_of, given_or, install_answer, refer_answer, signal_answer,
    take_answer, tell_found, tell_given, tell_known, tell_next, tell_taken,
};
use std::alloc::Global;

/// The version of this face.
#[unsafe(no_mangle)]
pub extern "C" fn vq_live_version() -> u32
    ensures { result ≡ 1 }
{
    1
}

/// Opens a timeline that reached a value, with no points.
#[unsafe(no_mangle)]
pub extern "C" fn vq_live_open(alloc: Global, initial: u64, timeline: &mut *mut u8) -> u32
    ensures { HasOpened timeline.old timeline.new result }
{
    match opened(alloc, initial) {
        Ok(live) => {
            *timeline = Box::into_raw(live) as *mut u8;
            call_code(Reply::Done)
        }
        Err(_) => call_code(Reply::NoMemory),
    }
}

/// Ends the timeline that is held, if one is, whatever is taken, pending or held, and gives back its memory.
#[unsafe(no_mangle)]
pub extern "C" fn vq_live_close(timeline: &mut Handle)
    ensures { timeline.new.value ≡ None }
{
    drop(timeline.slot().take());
}

/// Gives a point to an operation with this value.
#[unsafe(no_mangle)]
pub extern "C" fn vq_live_take(timeline: &mut Handle, value: u64, given: &mut GivenRow) -> u32
    ensures { HasAnswered (λ t u. HasGiven t u value given.old given.new result) (given.new ≡ given.old)
        timeline.old.value timeline.new.value result }
{
    let Some(taken) = taken(timeline.slot(), value) else {
        return call_code(Reply::NoHandle);
    };
    tell_taken(taken, given);
    take_answer(taken)
}

/// Makes the taken operation of least value pending.
#[unsafe(no_mangle)]
pub extern "C" fn vq_live_install(
    timeline: &mut Handle,
    given: &GivenRow,
    next: &mut GivenRow,
) -> u32
    ensures { HasAnswered (λ t u. HasInstalled t (given_of given.now) u next.old next.new result) (next.new ≡ next.old)
        timeline.old.value timeline.new.value result }
{
    let Some(fault) = installed(timeline.slot(), given_of(given)) else {
        return call_code(Reply::NoHandle);
    };
    tell_next(fault, next);
    install_answer(fault)
}

/// Takes back an operation that is taken and not installed.
#[unsafe(no_mangle)]
pub extern "C" fn vq_live_cancel(timeline: &mut Handle, given: &GivenRow) -> u32
    ensures { HasAnswered (λ t u. HasCancelled t (given_of given.now) u result) Unit
        timeline.old.value timeline.new.value result }
{
    match cancelled(timeline.slot(), given_of(given)) {
        Some(fault) => cancel_answer(fault),
        None => call_code(Reply::NoHandle),
    }
}

/// Completes the first pending operation.
#[unsafe(no_mangle)]
pub extern "C" fn vq_live_complete(timeline: &mut Handle, given: &mut GivenRow) -> u32
    ensures { HasAnswered (λ t u. HasCompleted t u given.old given.new result) (given.new ≡ given.old)
        timeline.old.value timeline.new.value result }
{
    let Some(first) = completed(timeline.slot()) else {
        return call_code(Reply::NoHandle);
    };
    tell_given(first, given);
    given_or(first, Reply::NothingPending)
}

/// Where a value stands.
#[unsafe(no_mangle)]
pub extern "C" fn vq_live_find(timeline: &mut Handle, value: u64, given: &mut GivenRow) -> u32
    ensures { HasAnswered (λ t u. HasFound t value u given.old given.new result) (given.new ≡ given.old)
        timeline.old.value timeline.new.value result }
{
    let Some(found) = sought(timeline.slot(), value) else {
        return call_code(Reply::NoHandle);
    };
    tell_found(found, given);
    find_code(found)
}

/// Holds a point that carries an operation.
#[unsafe(no_mangle)]
pub extern "C" fn vq_live_refer(timeline: &mut Handle, point: u32) -> u32
    ensures { HasAnswered (λ t u. HasReferred t point u result) Unit timeline.old.value timeline.new.value result }
{
    match referred(timeline.slot(), point) {
        Some(fault) => refer_answer(fault),
        None => call_code(Reply::NoHandle),
    }
}

/// Gives a reference to a point back.
#[unsafe(no_mangle)]
pub extern "C" fn vq_live_unref(timeline: &mut Handle, point: u32) -> u32
    ensures { HasAnswered (λ t u. HasReturned t u point result) Unit timeline.old.value timeline.new.value result }
{
    match returned(timeline.slot(), point) {
        Some(reply) => call_code(reply),
        None => call_code(Reply::NoHandle),
    }
}

/// The host sets a value.
#[unsafe(no_mangle)]
pub extern "C" fn vq_live_signal(timeline: &mut Handle, value: u64, known: &mut u64) -> u32
    ensures { HasAnswered (λ t u. HasSignaled t value u known.old known.new result) (known.new ≡ known.old)
        timeline.old.value timeline.new.value result }
{
    let Some(fault) = signaled(timeline.slot(), value) else {
        return call_code(Reply::NoHandle);
    };
    tell_known(fault, known);
    signal_answer(fault)
}

/// The value that the timeline reached, 0 where none is held.
#[unsafe(no_mangle)]
pub extern "C" fn vq_live_value(timeline: &mut Handle) -> u64
    ensures same { timeline.new.value ≡ timeline.old.value }
    ensures value { result ≡ payload_of timeline.old.value }
{
    reached(timeline.slot())
}

/// The first pending operation.
#[unsafe(no_mangle)]
pub extern "C" fn vq_live_first(timeline: &mut Handle, given: &mut GivenRow) -> u32
    ensures { HasAnswered (λ t u. HasToldFirst t u given.old given.new result) (given.new ≡ given.old)
        timeline.old.value timeline.new.value result }
{
    let Some(pending) = first(timeline.slot()) else {
        return call_code(Reply::NoHandle);
    };
    tell_given(pending, given);
    given_or(pending, Reply::NothingPending)
}

/// The taken operation of least value.
#[unsafe(no_mangle)]
pub extern "C" fn vq_live_least_taken(timeline: &mut Handle, given: &mut GivenRow) -> u32
    ensures { HasAnswered (λ t u. HasToldLeast t u given.old given.new result) (given.new ≡ given.old)
        timeline.old.value timeline.new.value result }
{
    let Some(next) = least_taken(timeline.slot()) else {
        return call_code(Reply::NoHandle);
    };
    tell_given(next, given);
    given_or(next, Reply::NothingTaken)
}
