//! What a generated script declares.
ghost use Rattle.std.specs.Prelude.{◌≡◌, IfOk, map};
ghost use Rattle.vq_generator.specs.Generated.{small_buffer, timeline_from_zero, threaded_queue};

use std::alloc::{AllocError, Global};
use vq_model::list::{List, Name};
use vq_model::script::{Buffer, Mode, Queue, Semaphore, SemaphoreKind};

/// A name of these bytes.
fn name(alloc: Global, text: &str) -> Result<Name, AllocError>
    ensures { IfOk result (λ made. made ≡ text.now) }
{
    Ok(Name::of(String::from_str(alloc, text)?))
}

/// Buffers of 64 bytes with these names.
pub(crate) fn buffers(alloc: Global, names: &[&str]) -> Result<List<Buffer>, AllocError>
    ensures { IfOk result (λ made. made ≡ map (λ text. small_buffer text.now) names.now) }
{
    let mut made = Vec::new(alloc);
    for text in names {
        made.push(Buffer {
            line: 0,
            name: name(alloc, text)?,
            size: 64,
        })?;
    }
    Ok(List::of(made))
}

/// Timelines with these names, which begin with 0.
pub(crate) fn timelines(alloc: Global, names: &[&str]) -> Result<List<Semaphore>, AllocError>
    ensures { IfOk result (λ made. made ≡ map (λ text. timeline_from_zero text.now) names.now) }
{
    let mut made = Vec::new(alloc);
    for text in names {
        made.push(Semaphore {
            line: 0,
            name: name(alloc, text)?,
            kind: SemaphoreKind::Timeline(0),
        })?;
    }
    Ok(List::of(made))
}

/// Threaded queues with these names.
pub(crate) fn queues(alloc: Global, names: &[&str]) -> Result<List<Queue>, AllocError>
    ensures { IfOk result (λ made. made ≡ map (λ text. threaded_queue text.now) names.now) }
{
    let mut made = Vec::new(alloc);
    for text in names {
        made.push(Queue {
            line: 0,
            name: name(alloc, text)?,
            mode: Mode::Threaded,
        })?;
    }
    Ok(List::of(made))
}
