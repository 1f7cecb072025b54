//! The verdict with memory on the capture that a source has, by the definition, written to a sink.
//!
//! Source: the order, and what is available and visible, are those of Vulkan 1.3, "Execution and Memory Dependencies"; the
//! format is this project's own.
ghost use Rattle.vq_capture_memory_laws.specs.MemoryJudgements.{JudgesMemory};

use std::alloc::Global;
use vq_capture_judge::JudgeStatus;
use vq_capture_memory_laws::laws::judge_memory_keeps_the_definition;
use vq_port::{Sink, Source};

/// Judges the capture that a source has, with memory: it reads it whole, and writes the verdict in a line. That is the
/// first faulty line with its first kind; or the race, or the unseen write, whose second line is the least at which one
/// ends, and whose first line is the greatest from which one leads there; whichever comes first, at one line the race; or
/// `ordered`. Every other ending is a counted fault of the source, after which nothing is written, or of the sink, or
/// want of memory, which is also a capture of more than 2^30 bytes.
pub fn judge_memory<S: Source, K: Sink>(alloc: Global, source: &mut S, sink: &mut K) -> JudgeStatus
    ensures headline { JudgesMemory result
        (record {
          left = S.left source.old;
          read_faults = S.faults source.old;
          written = K.written sink.old;
          write_faults = K.faults sink.old;
        })
        (record {
          left = S.left source.new;
          read_faults = S.faults source.new;
          written = K.written sink.new;
          write_faults = K.faults sink.new;
        }) }
{
    let status = vq_capture_memory_judge::judge_memory(alloc, source, sink);
    judge_memory_keeps_the_definition();
    status
}
