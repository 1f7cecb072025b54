//! The lines of a canonical text that are its version and declarations.
ghost use Rattle.std.specs.Prelude.{◌≡◌, ◌++◌, ◌∷◌, [], OnOk};
ghost use Rattle.std.specs.List.{flat_map};
ghost use Rattle.vq_model.specs.Canonical.{version_words, buffer_words, semaphore_words, queue_words, line_text};

use crate::words::{mode_word, push_name_line, push_number_line, push_word};
use std::alloc::AllocError;
use vq_model::script::{Buffer, Queue, Semaphore, SemaphoreKind};

/// Adds the line of a version, which the first has none of.
pub(crate) fn push_version(out: &mut Vec<u8>, version: u32) -> Result<(), AllocError>
    ensures { OnOk result
        (out.new.items ≡ out.old.items ++ flat_map line_text (version_words version)) }
{
    if version == 2 {
        out.extend_from_slice(b"version 2\n")
    } else {
        Ok(())
    }
}

/// Adds the line of a buffer.
fn push_buffer(out: &mut Vec<u8>, buffer: &Buffer) -> Result<(), AllocError>
    ensures { OnOk result (out.new.items ≡ out.old.items ++ line_text (buffer_words buffer.now)) }
{
    let size = u64::from(buffer.size);
    push_number_line(out, b"buffer", buffer.name.as_slice(), size)
}

/// Adds the lines of buffers.
pub(crate) fn push_buffers(out: &mut Vec<u8>, buffers: &[Buffer]) -> Result<(), AllocError>
    ensures { OnOk result (out.new.items ≡ out.old.items
        ++ flat_map (λ b. line_text (buffer_words b)) buffers.now) }
{
    for buffer in buffers {
        push_buffer(out, buffer)?;
    }
    Ok(())
}

/// Adds the line of a timeline, a binary semaphore or a fence.
fn push_semaphore(out: &mut Vec<u8>, semaphore: &Semaphore) -> Result<(), AllocError>
    ensures { OnOk result
        (out.new.items ≡ out.old.items ++ line_text (semaphore_words semaphore.now)) }
{
    let name = semaphore.name.as_slice();
    match semaphore.kind {
        SemaphoreKind::Timeline(value) => push_number_line(out, b"timeline", name, value),
        SemaphoreKind::Binary => push_name_line(out, b"binary", name),
        SemaphoreKind::Fence => push_name_line(out, b"fence", name),
    }
}

/// Adds the lines of timelines, binary semaphores and fences.
pub(crate) fn push_semaphores(out: &mut Vec<u8>, semaphores: &[Semaphore]) -> Result<(), AllocError>
    ensures { OnOk result (out.new.items ≡ out.old.items
        ++ flat_map (λ x. line_text (semaphore_words x)) semaphores.now) }
{
    for semaphore in semaphores {
        push_semaphore(out, semaphore)?;
    }
    Ok(())
}

/// Adds the line of a queue.
fn push_queue(out: &mut Vec<u8>, queue: &Queue) -> Result<(), AllocError>
    ensures { OnOk result (out.new.items ≡ out.old.items ++ line_text (queue_words queue.now)) }
{
    out.extend_from_slice(b"queue")?;
    push_word(out, queue.name.as_slice())?;
    push_word(out, mode_word(queue.mode))?;
    out.push(b'\n')?;
    Ok(())
}

/// Adds the lines of queues.
pub(crate) fn push_queues(out: &mut Vec<u8>, queues: &[Queue]) -> Result<(), AllocError>
    ensures { OnOk result (out.new.items ≡ out.old.items
        ++ flat_map (λ q. line_text (queue_words q)) queues.now) }
{
    for queue in queues {
        push_queue(out, queue)?;
    }
    Ok(())
}
