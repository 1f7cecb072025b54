//! The threads of a text, as they are read.
ghost use Rattle.std.specs.Prelude.{◌≡◌, ◌<◌, ◌≤◌, All, OnOk, length, map, true};
ghost use Rattle.std.specs.List.{list_any};
ghost use Rattle.std.specs.Str.{bytes_eq};
ghost use Rattle.vq_model.specs.ScriptOfLines.{mark};

use std::alloc::{AllocError, Global};
use vq_model::list::{List, Name};
use vq_model::script::{Batch, Mark, Mode, Queue};

/// The threads so far: a queue for each, and a batch for each step, whose queue is the number of the thread.
#[derive(Drop)]
pub struct Threads {
    pub queues: Vec<Queue>,
    pub batches: Vec<Batch>,
    /// Whether the block of the last thread is open.
    pub inside: bool,
    ghost few_queues: { length queues.items ≤ 16 },
    ghost some: { inside ≡ true → 0 < length queues.items },
    ghost small_batches: { All (λ b. b.queue < 16) batches.items },
}

impl Threads {
    ghost use Rattle.vq_blocks.specs.Blocks.{Told, nothing_told, signaled_by, waited_by, with_block_line};
    ghost use Rattle.vq_blocks.specs.declared.block.BlockStatement.TheVariants.{BeginThread, TakeStep, EndThread};
    ghost use Rattle.vq_blocks.specs.declared.block.ThreadStep.{ThreadStep};
    ghost use Rattle.vq_hosts.specs.HasThreads.{HasThreads};
    ghost use Rattle.std.specs.Prelude.{ℕ};

    /// No threads.
    pub fn new(alloc: Global) -> Threads
        ensures { HasThreads nothing_told result }
    {
        Threads {
            queues: Vec::new(alloc),
            batches: Vec::new(alloc),
            inside: false,
        }
    }

    /// Whether a thread has this name.
    pub fn is_named(&self, name: &[u8]) -> bool
        ensures { result ≡ list_any (λ q. bytes_eq name.now q.name) self.now.queues.items }
    {
        for queue in &self.queues {
            if name == queue.name.as_slice() {
                return true;
            }
        }
        false
    }

    /// Begins the block of a thread. For want of memory all stays as it was.
    pub fn begin(&mut self, number: u32, name: Name) -> Result<(), AllocError>
        requires room { length self.old.queues.items < 16 }
        ensures { OnOk result ((told : Told) → HasThreads told self.old →
            HasThreads (with_block_line told number (BeginThread name)) self.new) }
    {
        self.queues.push(Queue {
            line: number,
            name,
            mode: Mode::Threaded,
        })?;
        self.inside = true;
        Ok(())
    }

    /// Takes a step of the last thread, which has these waits and signals. For want of memory all stays as it was.
    pub fn take(
        &mut self,
        alloc: Global,
        number: u32,
        waits: Vec<Mark>,
        signals: Vec<Mark>,
    ) -> Result<(), AllocError>
        requires inside { self.old.inside ≡ true }
        ensures { OnOk result ((told : Told) (step : ThreadStep) → HasThreads told self.old →
            waits.items ≡ map (λ pair. mark number pair 1) (waited_by step) →
            signals.items ≡ map (λ pair. mark number pair 1) (signaled_by step) →
            HasThreads (with_block_line told number (TakeStep step)) self.new) }
    {
        let queue = (self.queues.len() - 1) as u32;
        self.batches.push(Batch {
            line: number,
            queue,
            waits: List::of(waits),
            commands: List::of(Vec::new(alloc)),
            signals: List::of(signals),
            fence: None,
        })?;
        Ok(())
    }

    /// Ends the block of the last thread.
    pub fn end(&mut self)
        ensures { (told : Told) (number : ℕ) → HasThreads told self.old →
            HasThreads (with_block_line told number EndThread) self.new }
    {
        self.inside = false;
    }
}
