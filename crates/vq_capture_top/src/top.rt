//! The verdict on the capture that a source has, by the definition, written to a sink.
//!
//! Source: the order is that of Vulkan 1.3, "Execution and Memory Dependencies"; the format is this project's own.
ghost use Rattle.vq_capture_judge_laws.specs.Judgements.{JudgesByDefinition};

use std::alloc::Global;
use vq_capture_judge::JudgeStatus;
use vq_capture_judge_laws::laws::judge_keeps_the_definition;
use vq_port::{Sink, Source};

/// Judges the capture that a source has: it reads as far as it must, and writes the verdict in a line. That is the first
/// faulty line with its first kind; or the race whose second line is the least at which a race ends, and whose first line
/// is the greatest that races with it; whichever comes first; or `ordered`, where no two accesses are a race. Every other
/// ending is a counted fault of the source, after which nothing is written, or of the sink, or want of memory.
pub fn judge<S: Source, K: Sink>(alloc: Global, source: &mut S, sink: &mut K) -> JudgeStatus
    ensures headline { JudgesByDefinition result
        (record {
          left = S.left source.old;
          read_faults = S.faults source.old;
          written = K.written sink.old;
          write_faults = K.faults sink.old;
        })
        (record {
          left = S.left source.new;
          read_faults = S.faults source.new;
          written = K.written sink.new;
          write_faults = K.faults sink.new;
        }) }
{
    let status = vq_capture_judge::judge(alloc, source, sink);
    judge_keeps_the_definition();
    status
}
