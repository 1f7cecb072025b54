//! What crosses to C of an answer.
ghost use Rattle.std.specs.Prelude.{◌≡◌};
ghost use Rattle.vq_layer_c.specs.Told.{said, signal_row, told, wait_row};

use crate::codes::call_code;
use crate::reply::Reply;
use vq_layer::{Signal, Wait};

/// The point of no operation.
const NO_POINT: u32 = u32::MAX;

/// What a call answers: its code, and what it tells besides; 0 where it tells nothing.
#[repr(C)]
#[derive(Clone, Copy)]
pub struct Answer {
    pub code: u32,
    pub number: u32,
    pub value: u64,
}

/// A wait or a signal of a batch: its value of a timeline, and its point.
#[repr(C)]
#[derive(Clone, Copy)]
pub struct PointRow {
    pub timeline: u32,
    pub point: u32,
    pub value: u64,
}

/// An answer that tells something.
pub(crate) fn told(reply: Reply, number: u32, value: u64) -> Answer
    ensures { result ≡ told reply number value }
{
    Answer {
        code: call_code(reply),
        number,
        value,
    }
}

/// An answer that tells nothing.
pub(crate) fn said(reply: Reply) -> Answer
    ensures { result ≡ said reply }
{
    told(reply, 0, 0)
}

/// A signal, as it crosses.
pub(crate) fn signal_row(signal: Signal) -> PointRow
    ensures { result ≡ signal_row signal }
{
    PointRow {
        timeline: signal.timeline,
        point: signal.given.point,
        value: signal.given.value,
    }
}

/// A wait, as it crosses.
pub(crate) fn wait_row(wait: Wait) -> PointRow
    ensures { result ≡ wait_row wait }
{
    PointRow {
        timeline: wait.wanted.timeline,
        point: wait.held.unwrap_or(NO_POINT),
        value: wait.wanted.value,
    }
}
