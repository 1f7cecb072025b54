//! The canonical text of a script.
//!
//! Source: this project's own, where an item names no other.
ghost use Rattle.std.specs.Prelude.{◌≡◌, IfOk};
ghost use Rattle.vq_model.specs.Canonical.{canonical_text};

use crate::batches::push_jobs;
use crate::declarations::{push_buffers, push_queues, push_semaphores, push_version};
use crate::schedule::push_schedule;
use std::alloc::{AllocError, Global};
use vq_model::script::Script;

/// The canonical text of a script: one space between words, no comment, and a line feed after each
/// line. The version comes first where it isn't 1, then the buffers, then the timelines, binary
/// semaphores and fences, then the queues, then the batches and the host steps, in their order, then
/// the schedule where there is one. A batch is its `submit` line, its waits, its commands, its
/// signals, its fence where it names one, and `end`; a wait names the place from which it holds back
/// where that is above 1; a host step is one line. A schedule is the line `schedule` and its turns:
/// neighbouring turns of one actor are one line, with their count where it is above 1. Numerals are
/// decimal; the word of a fill is `0x` and eight lower-case digits, and the bytes of an update are
/// lower-case digits. The error is want of memory.
pub fn print(alloc: Global, script: &Script) -> Result<Vec<u8>, AllocError>
    ensures { IfOk result (λ text. text.items ≡ canonical_text script.now) }
{
    print_as(alloc, script, script.version)
}

/// The canonical text of a script in another version: the same lines behind the line of that version.
pub fn print_as(alloc: Global, script: &Script, version: u32) -> Result<Vec<u8>, AllocError>
    ensures { IfOk result (λ text. text.items ≡ canonical_text (record script.now { version = version })) }
{
    let mut out = Vec::new(alloc);
    push_version(&mut out, version)?;
    push_buffers(&mut out, script.buffers.as_slice())?;
    push_semaphores(&mut out, script.semaphores.as_slice())?;
    push_queues(&mut out, script.queues.as_slice())?;
    push_jobs(&mut out, script, script.jobs.as_slice())?;
    push_schedule(&mut out, script)?;
    Ok(out)
}
