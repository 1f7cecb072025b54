//! The lines of a canonical text that are jobs.
ghost use Rattle.std.specs.Prelude.{◌≡◌, ◌++◌, ◌∷◌, [], OnOk};
ghost use Rattle.std.specs.List.{flat_map, join_with_byte};
ghost use Rattle.vq_model.specs.Canonical.{mark_words, from_words, wait_words};
ghost use Rattle.vq_model.specs.Naming.{semaphore_name, semaphore_kind, queue_name};
ghost use Rattle.vq_model.specs.Canonical.{signal_words, fence_lines, job_words, line_text};

use crate::commands::push_commands;
use crate::host_steps::push_step;
use crate::words::{push_name_line, push_number, push_word};
use std::alloc::AllocError;
use vq_model::script::{Batch, Job, Mark, Script, SemaphoreKind};

/// The name of a queue, empty for a queue that isn't declared.
pub fn queue_name(script: &Script, queue: u32) -> &[u8]
    ensures { result.now ≡ queue_name script.now queue }
{
    match script.queues.as_slice().get(queue as usize) {
        Some(declared) => declared.name.as_slice(),
        None => &[],
    }
}

/// The name of a semaphore or fence, empty for one that isn't declared.
pub fn semaphore_name(script: &Script, semaphore: u32) -> &[u8]
    ensures { result.now ≡ semaphore_name script.now semaphore }
{
    match script.semaphores.as_slice().get(semaphore as usize) {
        Some(declared) => declared.name.as_slice(),
        None => &[],
    }
}

/// The kind of a semaphore or fence, binary for one that isn't declared.
fn semaphore_kind(script: &Script, semaphore: u32) -> SemaphoreKind
    ensures { result ≡ semaphore_kind script.now semaphore }
{
    match script.semaphores.as_slice().get(semaphore as usize) {
        Some(declared) => declared.kind,
        None => SemaphoreKind::Binary,
    }
}

/// Adds a word and a semaphore, with the value where it is a timeline.
fn push_mark(out: &mut Vec<u8>, script: &Script, word: &[u8], mark: Mark) -> Result<(), AllocError>
    ensures { OnOk result (out.new.items ≡ out.old.items
        ++ join_with_byte 32 (word.now ∷ mark_words script.now mark)) }
{
    out.extend_from_slice(word)?;
    push_word(out, semaphore_name(script, mark.semaphore))?;
    match semaphore_kind(script, mark.semaphore) {
        SemaphoreKind::Timeline(_) => push_number(out, mark.value),
        SemaphoreKind::Binary => Ok(()),
        SemaphoreKind::Fence => Ok(()),
    }
}

/// Adds the place from which a wait holds back its batch, where it is above 1.
fn push_from(out: &mut Vec<u8>, from: u32) -> Result<(), AllocError>
    ensures { OnOk result
        (out.new.items ≡ out.old.items ++ flat_map (λ word. 32 ∷ word) (from_words from)) }
{
    if 1 < from {
        push_word(out, b"from")?;
        push_number(out, u64::from(from))
    } else {
        Ok(())
    }
}

/// Adds the line of a wait.
fn push_wait(out: &mut Vec<u8>, script: &Script, wait: Mark) -> Result<(), AllocError>
    ensures { OnOk result
        (out.new.items ≡ out.old.items ++ line_text (wait_words script.now wait)) }
{
    push_mark(out, script, b"wait", wait)?;
    push_from(out, wait.from)?;
    out.push(b'\n')?;
    Ok(())
}

/// Adds the lines of waits.
fn push_waits(out: &mut Vec<u8>, script: &Script, waits: &[Mark]) -> Result<(), AllocError>
    ensures { OnOk result (out.new.items ≡ out.old.items
        ++ flat_map (λ m. line_text (wait_words script.now m)) waits.now) }
{
    for wait in waits {
        push_wait(out, script, *wait)?;
    }
    Ok(())
}

/// Adds the line of a signal.
fn push_signal(out: &mut Vec<u8>, script: &Script, signal: Mark) -> Result<(), AllocError>
    ensures { OnOk result
        (out.new.items ≡ out.old.items ++ line_text (signal_words script.now signal)) }
{
    push_mark(out, script, b"signal", signal)?;
    out.push(b'\n')?;
    Ok(())
}

/// Adds the lines of signals.
fn push_signals(out: &mut Vec<u8>, script: &Script, signals: &[Mark]) -> Result<(), AllocError>
    ensures { OnOk result (out.new.items ≡ out.old.items
        ++ flat_map (λ m. line_text (signal_words script.now m)) signals.now) }
{
    for signal in signals {
        push_signal(out, script, *signal)?;
    }
    Ok(())
}

/// Adds the line of a batch's fence, if it names one.
fn push_fence(out: &mut Vec<u8>, script: &Script, fence: Option<Mark>) -> Result<(), AllocError>
    ensures { OnOk result (out.new.items ≡ out.old.items
        ++ flat_map line_text (fence_lines script.now fence)) }
{
    match fence {
        Some(mark) => push_name_line(out, b"fence", semaphore_name(script, mark.semaphore)),
        None => Ok(()),
    }
}

/// Adds the lines of a batch.
fn push_batch(out: &mut Vec<u8>, script: &Script, batch: &Batch) -> Result<(), AllocError>
    ensures { OnOk result (out.new.items ≡ out.old.items
        ++ flat_map line_text (job_words script.now (Job.Batch batch.now))) }
{
    push_name_line(out, b"submit", queue_name(script, batch.queue))?;
    push_waits(out, script, batch.waits.as_slice())?;
    push_commands(out, script, batch.commands.as_slice())?;
    push_signals(out, script, batch.signals.as_slice())?;
    push_fence(out, script, batch.fence)?;
    out.extend_from_slice(b"end\n")
}

/// Adds the lines of jobs.
pub(crate) fn push_jobs(out: &mut Vec<u8>, script: &Script, jobs: &[Job]) -> Result<(), AllocError>
    ensures { OnOk result (out.new.items ≡ out.old.items
        ++ flat_map (λ j. flat_map line_text (job_words script.now j)) jobs.now) }
{
    for job in jobs {
        match job {
            Job::Host(step) => push_step(out, script, &step.step)?,
            Job::Batch(batch) => push_batch(out, script, batch)?,
        }
    }
    Ok(())
}
