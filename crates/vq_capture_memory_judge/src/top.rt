//! The verdict with memory on what a source has, written to a sink.
ghost use Rattle.std.specs.Prelude.{◌≡◌, ◌≤◌, IfOk, IsErrOf, IfSome};
ghost use Rattle.vq_port.specs.Faults.{Rose};
ghost use Rattle.vq_port.specs.declared.read.ReadFault.TheVariants.{Failed as ReadFailed};
ghost use Rattle.vq_capture_memory_judge.specs.MemoryEndings.{JudgesMemoryAs, SaysMemory, memory_status, MemorySaysOf};

use crate::races::memory_judged;
use crate::texts::memory_text;
use std::alloc::Global;
use vq_capture_judge::JudgeStatus;
use vq_capture_memory::verdict::MemoryVerdict;
use vq_port::{ReadFault, Sink, Source, read_whole, write_whole};

/// The most bytes of a capture that are read.
const LIMIT: usize = 1 << 30;

/// Reads a source whole, and gives the verdict on what it had.
fn find_verdict<S: Source>(alloc: Global, source: &mut S) -> Result<MemoryVerdict, ReadFault>
    ensures said { IfOk result (MemorySaysOf (S.left source.old)) }
    ensures failed { IsErrOf result ReadFailed → Rose (S.faults source.old) (S.faults source.new) }
{
    let text = read_whole(alloc, source, LIMIT)?;
    match memory_judged(alloc, &text) {
        Ok(verdict) => Ok(verdict),
        Err(_) => Err(ReadFault::Memory),
    }
}

/// How a judgement ends that says a verdict.
fn memory_status(verdict: MemoryVerdict) -> JudgeStatus
    ensures { result ≡ memory_status verdict }
{
    match verdict {
        MemoryVerdict::AllSeen => JudgeStatus::Ordered,
        MemoryVerdict::Racing { .. } => JudgeStatus::Refused,
        MemoryVerdict::NotSeen { .. } => JudgeStatus::Refused,
        MemoryVerdict::Refused { .. } => JudgeStatus::Refused,
    }
}

/// Writes a verdict.
fn say<K: Sink>(alloc: Global, verdict: MemoryVerdict, sink: &mut K) -> JudgeStatus
    ensures { SaysMemory verdict (K.written sink.old) (K.faults sink.old) (K.written sink.new) (K.faults sink.new)
        result }
{
    let Ok(text) = memory_text(alloc, verdict) else {
        return JudgeStatus::Memory;
    };
    match write_whole(sink, &text) {
        Ok(()) => memory_status(verdict),
        Err(_) => JudgeStatus::WriteFault,
    }
}

/// Judges the capture that a source has, with memory: it reads it whole, and writes the verdict in a line. Want of memory
/// is also a capture of more than 2^30 bytes.
pub fn judge_memory<S: Source, K: Sink>(alloc: Global, source: &mut S, sink: &mut K) -> JudgeStatus
    ensures headline { JudgesMemoryAs result
        (record {
          left = S.left source.old;
          read_faults = S.faults source.old;
          written = K.written sink.old;
          write_faults = K.faults sink.old;
        })
        (record {
          left = S.left source.new;
          read_faults = S.faults source.new;
          written = K.written sink.new;
          write_faults = K.faults sink.new;
        }) }
{
    match find_verdict(alloc, source) {
        Ok(verdict) => say(alloc, verdict, sink),
        Err(ReadFault::Failed) => JudgeStatus::ReadFault,
        Err(ReadFault::TooLong) => JudgeStatus::Memory,
        Err(ReadFault::Memory) => JudgeStatus::Memory,
    }
}
