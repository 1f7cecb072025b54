//! A batch that is open.
ghost use Rattle.std.specs.Prelude.{◌≡◌, ◌+◌, IfOk, OnOk, Some, length};
ghost use Rattle.vq_model.specs.ScriptOfLines.{mark};
ghost use Rattle.vq_script.specs.Holds.{batch_so_far, last_part, waits_past};
ghost use Rattle.vq_script.specs.SaidLines.{started, waiting, commanding, signaling, fenced};

use std::alloc::{AllocError, Global};
use vq_model::list::List;
use vq_model::script::{Batch, Command, CommandLine, Job, Mark, Pair};

/// A batch whose `end` line hasn't come.
#[derive(Drop)]
pub struct OpenBatch {
    pub line: u32,
    pub queue: u32,
    pub waits: Vec<Mark>,
    pub commands: Vec<CommandLine>,
    pub signals: Vec<Mark>,
    pub fence: Option<Mark>,
}

/// The mark of a line. If it is a wait, it holds back the batch from a place of its commands on.
fn mark(number: u32, pair: Pair, from: u32) -> Mark
    ensures { result ≡ mark number pair from }
{
    Mark {
        line: number,
        semaphore: pair.semaphore,
        value: pair.value,
        from,
    }
}

impl OpenBatch {
    /// A batch without lines so far.
    pub fn new(alloc: Global, line: u32, queue: u32) -> OpenBatch
        ensures { batch_so_far result ≡ started line queue }
    {
        OpenBatch {
            line,
            queue,
            waits: Vec::new(alloc),
            commands: Vec::new(alloc),
            signals: Vec::new(alloc),
            fence: None,
        }
    }

    /// A batch without lines so far, with room for as many as the last job has, where that is a batch: neighbours mostly
    /// have as many. The error is want of memory.
    pub fn like(
        alloc: Global,
        line: u32,
        queue: u32,
        last: Option<&Job>,
    ) -> Result<OpenBatch, AllocError>
        ensures { IfOk result (λ batch. batch_so_far batch ≡ started line queue) }
    {
        let Some(Job::Batch(batch)) = last else {
            return Ok(OpenBatch::new(alloc, line, queue));
        };
        Ok(OpenBatch {
            line,
            queue,
            waits: Vec::with_capacity(alloc, batch.waits.len())?,
            commands: Vec::with_capacity(alloc, batch.commands.len())?,
            signals: Vec::with_capacity(alloc, batch.signals.len())?,
            fence: None,
        })
    }

    /// The last part of the batch of which there is a line: 1 for its waits, 2 for its commands, 3
    /// for its signals, 4 for its fence.
    pub fn last_part(&self) -> u32
        ensures { result ≡ last_part (Some (batch_so_far self.now)) }
    {
        if self.fence.is_some() {
            4
        } else if !self.signals.is_empty() {
            3
        } else if !self.commands.is_empty() {
            2
        } else if !self.waits.is_empty() {
            1
        } else {
            0
        }
    }

    /// Whether a wait of the batch names a place past its commands and the one behind them, so that it holds back
    /// nothing of the batch.
    pub fn waits_too_far(&self) -> bool
        ensures { result ≡ waits_past (length self.now.commands.items + 1) self.now.waits.items }
    {
        for wait in &self.waits {
            if wait.from as usize > self.commands.len() + 1 {
                return true;
            }
        }
        false
    }

    /// Adds the wait of a line.
    pub fn add_wait(&mut self, number: u32, pair: Pair, from: u32) -> Result<(), AllocError>
        ensures { OnOk result (batch_so_far self.new ≡ waiting (batch_so_far self.old) number pair from) }
    {
        self.waits.push(mark(number, pair, from))?;
        Ok(())
    }

    /// Adds the command of a line.
    pub fn add_command(&mut self, number: u32, command: Command) -> Result<(), AllocError>
        ensures { OnOk result (batch_so_far self.new ≡ commanding (batch_so_far self.old) number command) }
    {
        // Most batches have few commands, and a place has many bytes.
        if self.commands.is_empty() {
            self.commands.reserve_exact(2)?;
        }
        self.commands.push(CommandLine {
            line: number,
            command,
        })?;
        Ok(())
    }

    /// Adds the signal of a line.
    pub fn add_signal(&mut self, number: u32, pair: Pair) -> Result<(), AllocError>
        ensures { OnOk result (batch_so_far self.new ≡ signaling (batch_so_far self.old) number pair) }
    {
        // Most batches have one signal.
        if self.signals.is_empty() {
            self.signals.reserve_exact(1)?;
        }
        self.signals.push(mark(number, pair, 1))?;
        Ok(())
    }

    /// Adds the fence of a line.
    pub fn add_fence(&mut self, number: u32, semaphore: u32)
        ensures { batch_so_far self.new ≡ fenced (batch_so_far self.old) number semaphore }
    {
        self.fence = Some(mark(
            number,
            Pair {
                semaphore,
                value: 0,
            },
            1,
        ));
    }

    /// The batch, where it ends.
    pub fn end(self) -> Batch
        ensures { result ≡ batch_so_far self }
    {
        Batch {
            line: self.line,
            queue: self.queue,
            waits: List::of(self.waits),
            commands: List::of(self.commands),
            signals: List::of(self.signals),
            fence: self.fence,
        }
    }
}
