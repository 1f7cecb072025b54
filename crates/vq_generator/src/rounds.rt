//! What a generated script submits.
ghost use Rattle.std.specs.Prelude.{◌≡◌, ◌==◌, ◌<◌, ◌≤◌, ◌++◌, ◌∷◌, [], IfOk, OnOk, map};
ghost use Rattle.std.specs.Prelude.{filter, flat_map, not};
ghost use Rattle.std.specs.List.{range_with_len};
ghost use Rattle.vq_generator.specs.Generated.{buffer_in_round, command_line, copy_of_round, fill_of_round};
ghost use Rattle.vq_generator.specs.Generated.{generated_batch, generated_round, mark_at, others};

use std::alloc::{AllocError, Global};
use vq_model::list::List;
use vq_model::script::{Batch, Command, CommandLine, FillSize, Job, Mark};

/// How many queues there are.
const QUEUES: u32 = 4;

/// The number of the buffer that a queue writes in a round.
fn buffer_in_round(round: u32, queue: u32) -> u32
    requires { queue < 4 }
    ensures { result ≡ buffer_in_round round queue }
{
    2 * queue + round % 2
}

/// A wait or a signal of a timeline.
fn mark_at(value: u32, timeline: u32) -> Mark
    ensures { result ≡ mark_at value timeline }
{
    Mark {
        line: 0,
        semaphore: timeline,
        value: u64::from(value),
        from: 1,
    }
}

/// Adds a wait for a value of a queue's timeline, but for the queue that waits.
fn push_wait(waits: &mut Vec<Mark>, value: u32, queue: u32, other: u32) -> Result<(), AllocError>
    ensures { OnOk result (waits.new.items ≡ waits.old.items
        ++ map (mark_at value) (filter (λ x. not (x == queue)) (other ∷ []))) }
{
    if other != queue {
        waits.push(mark_at(value, other))?;
    }
    Ok(())
}

/// The waits of a queue for a value of the other queues' timelines.
fn waits(alloc: Global, value: u32, queue: u32) -> Result<List<Mark>, AllocError>
    ensures { IfOk result (λ made. made ≡ map (mark_at value) (others queue)) }
{
    let mut made = Vec::new(alloc);
    for other in 0..QUEUES {
        push_wait(&mut made, value, queue, other)?;
    }
    Ok(List::of(made))
}

/// The commands of a queue in a round: a copy of what the next queue wrote in the round before, and a
/// word over it.
fn commands(alloc: Global, round: u32, queue: u32) -> Result<List<CommandLine>, AllocError>
    requires first { 1 ≤ round }
    requires last { round ≤ 500 }
    requires queue { queue < 4 }
    ensures { IfOk result (λ made. made
        ≡ map command_line (copy_of_round round queue ∷ fill_of_round round queue ∷ [])) }
{
    let copy = Command::Copy {
        source: buffer_in_round(round - 1, (queue + 1) % QUEUES),
        source_offset: 0,
        target: buffer_in_round(round, queue),
        target_offset: 0,
        size: 64,
    };
    let fill = Command::Fill {
        buffer: buffer_in_round(round, queue),
        offset: 4 * (round % 16),
        size: FillSize::Count(4),
        word: QUEUES * round + queue,
    };
    let mut made = Vec::new(alloc);
    made.push(CommandLine {
        line: 0,
        command: copy,
    })?;
    made.push(CommandLine {
        line: 0,
        command: fill,
    })?;
    Ok(List::of(made))
}

/// The batch of a queue in a round.
fn batch(alloc: Global, round: u32, queue: u32) -> Result<Job, AllocError>
    requires first { 1 ≤ round }
    requires last { round ≤ 500 }
    requires queue { queue < 4 }
    ensures { IfOk result (λ made. made ≡ generated_batch round queue) }
{
    let waits = waits(alloc, round - 1, queue)?;
    let commands = commands(alloc, round, queue)?;
    let mut signals = Vec::new(alloc);
    signals.push(mark_at(round, queue))?;
    Ok(Job::Batch(Batch {
        line: 0,
        queue,
        waits,
        commands,
        signals: List::of(signals),
        fence: None,
    }))
}

/// Adds the batches of a round.
fn push_round(alloc: Global, jobs: &mut Vec<Job>, round: u32) -> Result<(), AllocError>
    requires first { 1 ≤ round }
    requires last { round ≤ 500 }
    ensures { OnOk result (jobs.new.items ≡ jobs.old.items ++ generated_round round) }
{
    for queue in 0..QUEUES {
        jobs.push(batch(alloc, round, queue)?)?;
    }
    Ok(())
}

/// The batches of so many rounds.
pub(crate) fn jobs(alloc: Global, rounds: u32) -> Result<List<Job>, AllocError>
    requires { rounds ≤ 500 }
    ensures { IfOk result (λ made. made ≡ flat_map generated_round (range_with_len 1 rounds)) }
{
    let mut made = Vec::new(alloc);
    for round in 0..rounds {
        push_round(alloc, &mut made, round + 1)?;
    }
    Ok(List::of(made))
}
