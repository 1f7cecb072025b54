//! The tasks that start no thread.
//!
//! Source: this project's own, where an item names no other.
ghost use Rattle.std.specs.Prelude.{◌≡◌, IfSome};
ghost use Rattle.vq_port.specs.Faults.{Rose};
ghost use Rattle.vq_run.specs.Ends.{Ends, IsDoneOrMemory, ReadsToEnd, WritesNothing};
ghost use Rattle.vq_run.specs.Readings.{IsLawfulInput};
ghost use Rattle.vq_run.specs.Tasks.{IsStill};
ghost use Rattle.vq_run.specs.Writes.{moment};

use crate::ending::{end_unread, end_with};
use crate::outcome::still_outcome;
use crate::status::Status;
use std::alloc::Global;
use vq_messages::INPUT_LIMIT;
use vq_port::{Sink, Source, read_whole};
use vq_words::Task;

/// Does a task that starts no thread, a check, a replay, rounds, an upgrade or an audit, with the script that the
/// source holds, and writes the answer. It waits for nobody, so it always returns.
///
/// The source is read to its end. An input above 4,194,304 bytes, for an audit one without a trace, a faulty line, a
/// script without a plan, an unlawful plan and a faulty line of a trace are `Refused`, with the line of the first
/// fault. `ReadFault` comes only where the source
/// counted a fault in this call, `WriteFault` only where the sink did; `Memory` is want of memory, and
/// `BadWords` never comes. The whole text is written at once, at the end.
pub fn still<S: Source, K: Sink>(alloc: Global, task: &Task, source: &mut S, sink: &mut K) -> Status
    requires { IsStill task.now }
    // It writes the first fault of the script, or what answers the task.
    ensures headline { IfSome (S.left source.old) (λ input.
        Ends task.now input result
        (moment K.written K.room K.faults sink.old)
        (moment K.written K.room K.faults sink.new)) }
    // A lawful script is answered, and the trace behind it if it can be read, unless the source or the sink fails.
    ensures lawful { IfSome (S.left source.old) (λ input. IsLawfulInput task.now input →
        ¬ Rose (S.faults source.old) (S.faults source.new) →
        ¬ Rose (K.faults sink.old) (K.faults sink.new) → IsDoneOrMemory result) }
    ensures no_bad_words { result ≡ Status.BadWords → ⊥ }
    ensures read_fault { result ≡ Status.ReadFault → Rose (S.faults source.old) (S.faults source.new) }
    ensures write_fault { result ≡ Status.WriteFault → Rose (K.faults sink.old) (K.faults sink.new) }
    ensures nothing { WritesNothing result
        (moment K.written K.room K.faults sink.old)
        (moment K.written K.room K.faults sink.new) }
    ensures to_end { ReadsToEnd result (S.left source.old) (S.left source.new) }
{
    match read_whole(alloc, source, INPUT_LIMIT) {
        Ok(input) => end_with(sink, still_outcome(alloc, *task, input)),
        Err(fault) => end_unread(sink, fault),
    }
}
