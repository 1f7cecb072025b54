//! How a run ends: with a text that is written, or with nothing.
ghost use Rattle.std.specs.Prelude.{◌≡◌};
ghost use Rattle.vq_run.specs.Writes.{EndsUnread, EndsWith, Writes, moment};

use crate::outcome::Reply;
use crate::status::Status;
use std::alloc::AllocError;
use vq_port::{ReadFault, Sink, write_whole};

/// Writes a text, and gives this status, or `WriteFault` where the writing fails.
pub(crate) fn write<K: Sink>(sink: &mut K, text: &[u8], status: Status) -> Status
    ensures { Writes text.now status result
        (moment K.written K.room K.faults sink.old)
        (moment K.written K.room K.faults sink.new) }
{
    match write_whole(sink, text) {
        Ok(()) => status,
        Err(_) => Status::WriteFault,
    }
}

/// Writes what an input came to; for want of memory nothing.
pub(crate) fn end_with<K: Sink>(sink: &mut K, outcome: Result<Reply, AllocError>) -> Status
    ensures { EndsWith outcome result
        (moment K.written K.room K.faults sink.old)
        (moment K.written K.room K.faults sink.new) }
{
    match outcome {
        Ok(outcome) => write(sink, outcome.text.as_slice(), outcome.status),
        Err(_) => Status::Memory,
    }
}

/// Ends a run whose input wasn't read whole.
pub(crate) fn end_unread<K: Sink>(sink: &mut K, fault: ReadFault) -> Status
    ensures { EndsUnread fault result
        (moment K.written K.room K.faults sink.old)
        (moment K.written K.room K.faults sink.new) }
{
    match fault {
        ReadFault::Failed => Status::ReadFault,
        ReadFault::Memory => Status::Memory,
        ReadFault::TooLong => write(sink, b"error: too long\n", Status::Refused),
    }
}
