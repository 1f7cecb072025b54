//! The script of the rest and of the threads.
ghost use Rattle.std.specs.Prelude.{◌≡◌, ◌++◌, ◌∷◌, ◌<◌, ◌≤◌, ◌+◌, ◌^◌, All, IfOk, OnOk, [], length, map};
ghost use Rattle.std.specs.List.{flat_map};
ghost use Rattle.vq_script.specs.Parts.{script_of_parts};
ghost use Rattle.vq_hosts.specs.Batches.{behind, lines_of_batch};

use crate::origins::{
    push_batch_lines, push_buffer_lines, push_lines, push_queue_lines, push_semaphore_lines,
};
use crate::threads::Threads;
use std::alloc::{AllocError, Global};
use vq_model::list::List;
use vq_model::script::{Batch, Job, Queue, Script};
use vq_script::ScriptParts;

/// A script by the lines of the input, and the lines from which those of its canonical text come.
#[derive(Drop)]
pub struct Joined {
    pub script: Script,
    pub lines: Vec<u32>,
}

/// The lines from which those of the canonical text come.
fn origins(
    alloc: Global,
    parts: &ScriptParts,
    threads: &Threads,
    version_line: u32,
    job_lines: &[u32],
) -> Result<Vec<u32>, AllocError>
    ensures { IfOk result (λ lines. lines.items ≡ version_line ∷ []
        ++ map (λ b. b.line) parts.now.buffers.items
        ++ map (λ x. x.line) parts.now.semaphores.items
        ++ map (λ q. q.line) parts.now.queues.items
        ++ map (λ q. q.line) threads.now.queues.items
        ++ flat_map lines_of_batch threads.now.batches.items
        ++ job_lines.now) }
{
    let mut lines = Vec::new(alloc);
    lines.push(version_line)?;
    push_buffer_lines(&mut lines, &parts.buffers)?;
    push_semaphore_lines(&mut lines, &parts.semaphores)?;
    push_queue_lines(&mut lines, &parts.queues)?;
    push_queue_lines(&mut lines, &threads.queues)?;
    push_batch_lines(&mut lines, &threads.batches)?;
    push_lines(&mut lines, job_lines)?;
    Ok(lines)
}

/// Adds queues.
fn push_queues(queues: &mut Vec<Queue>, more: Vec<Queue>) -> Result<(), AllocError>
    ensures { OnOk result (queues.new.items ≡ queues.old.items ++ more.items) }
{
    for queue in more {
        queues.push(queue)?;
    }
    Ok(())
}

/// Adds jobs.
fn push_jobs(jobs: &mut Vec<Job>, more: Vec<Job>) -> Result<(), AllocError>
    ensures { OnOk result (jobs.new.items ≡ jobs.old.items ++ more.items) }
{
    for job in more {
        jobs.push(job)?;
    }
    Ok(())
}

/// A batch as a job, on a queue behind so many others.
fn behind(count: u32, batch: Batch) -> Job
    requires { count + batch.queue < 2 ^ 32 }
    ensures { result ≡ behind count batch }
{
    Job::Batch(Batch {
        line: batch.line,
        queue: count + batch.queue,
        waits: batch.waits,
        commands: batch.commands,
        signals: batch.signals,
        fence: batch.fence,
    })
}

/// The batches of threads as jobs, on queues behind so many others.
fn jobs_behind(alloc: Global, count: u32, batches: Vec<Batch>) -> Result<Vec<Job>, AllocError>
    requires count { count ≤ 16 }
    requires small { All (λ b. b.queue < 16) batches.items }
    ensures { IfOk result (λ jobs. jobs.items ≡ map (behind count) batches.items) }
{
    let mut jobs = Vec::new(alloc);
    for batch in batches {
        jobs.push(behind(count, batch))?;
    }
    Ok(jobs)
}

/// The script of the rest with threads, and where the lines of its canonical text come from.
pub fn join_parts(
    alloc: Global,
    parts: ScriptParts,
    threads: Threads,
    version_line: u32,
    job_lines: &[u32],
) -> Result<Joined, AllocError>
    ensures script { IfOk result (λ joined. joined.script ≡ record (script_of_parts parts) {
      version = 2;
      queues = parts.queues.items ++ threads.queues.items;
      jobs = map (behind (length parts.queues.items)) threads.batches.items ++ parts.jobs.items;
    }) }
    ensures lines { IfOk result (λ joined. joined.lines.items ≡ version_line ∷ []
        ++ map (λ b. b.line) parts.buffers.items
        ++ map (λ x. x.line) parts.semaphores.items
        ++ map (λ q. q.line) parts.queues.items
        ++ map (λ q. q.line) threads.queues.items
        ++ flat_map lines_of_batch threads.batches.items
        ++ job_lines.now) }
{
    let lines = origins(alloc, &parts, &threads, version_line, job_lines)?;
    let mut jobs = jobs_behind(alloc, parts.queues.len() as u32, threads.batches)?;
    push_jobs(&mut jobs, parts.jobs)?;
    let mut queues = parts.queues;
    push_queues(&mut queues, threads.queues)?;
    let script = Script {
        version: 2,
        buffers: List::of(parts.buffers),
        semaphores: List::of(parts.semaphores),
        queues: List::of(queues),
        jobs: List::of(jobs),
        scheduled: parts.scheduled,
        turns: List::of(parts.turns),
    };
    Ok(Joined { script, lines })
}
