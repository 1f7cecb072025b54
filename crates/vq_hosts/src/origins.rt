//! The lines of the input from which those of a canonical text come.
ghost use Rattle.std.specs.Prelude.{◌≡◌, ◌++◌, ◌∷◌, [], OnOk, map};
ghost use Rattle.std.specs.List.{flat_map};
ghost use Rattle.vq_hosts.specs.Batches.{lines_of_batch};

use std::alloc::AllocError;
use vq_model::script::{Batch, Buffer, Queue, Semaphore};

/// Adds a line.
pub fn push_line(lines: &mut Vec<u32>, line: u32) -> Result<(), AllocError>
    ensures { OnOk result (lines.new.items ≡ lines.old.items ++ line ∷ []) }
{
    lines.push(line)?;
    Ok(())
}

/// Adds the lines of buffers.
pub fn push_buffer_lines(lines: &mut Vec<u32>, buffers: &[Buffer]) -> Result<(), AllocError>
    ensures { OnOk result (lines.new.items ≡ lines.old.items ++ map (λ b. b.line) buffers.now) }
{
    for buffer in buffers {
        lines.push(buffer.line)?;
    }
    Ok(())
}

/// Adds the lines of semaphores and fences.
pub fn push_semaphore_lines(
    lines: &mut Vec<u32>,
    semaphores: &[Semaphore],
) -> Result<(), AllocError>
    ensures { OnOk result (lines.new.items ≡ lines.old.items ++ map (λ x. x.line) semaphores.now) }
{
    for semaphore in semaphores {
        lines.push(semaphore.line)?;
    }
    Ok(())
}

/// Adds the lines of queues.
pub fn push_queue_lines(lines: &mut Vec<u32>, queues: &[Queue]) -> Result<(), AllocError>
    ensures { OnOk result (lines.new.items ≡ lines.old.items ++ map (λ q. q.line) queues.now) }
{
    for queue in queues {
        lines.push(queue.line)?;
    }
    Ok(())
}

/// Adds the line of a batch for each of its waits and signals, and twice more.
fn push_batch_line(lines: &mut Vec<u32>, batch: &Batch) -> Result<(), AllocError>
    ensures { OnOk result (lines.new.items ≡ lines.old.items ++ lines_of_batch batch.now) }
{
    for _ in 0..batch.waits.len() {
        lines.push(batch.line)?;
    }
    for _ in 0..batch.signals.len() {
        lines.push(batch.line)?;
    }
    lines.push(batch.line)?;
    lines.push(batch.line)?;
    Ok(())
}

/// Adds the lines of the threads' batches.
pub fn push_batch_lines(lines: &mut Vec<u32>, batches: &[Batch]) -> Result<(), AllocError>
    ensures { OnOk result (lines.new.items ≡ lines.old.items ++ flat_map lines_of_batch batches.now) }
{
    for batch in batches {
        push_batch_line(lines, batch)?;
    }
    Ok(())
}

/// Adds lines.
pub fn push_lines(lines: &mut Vec<u32>, more: &[u32]) -> Result<(), AllocError>
    ensures { OnOk result (lines.new.items ≡ lines.old.items ++ more.now) }
{
    for line in more {
        lines.push(*line)?;
    }
    Ok(())
}
