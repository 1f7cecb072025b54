//! What is kept after a line more.
ghost use Rattle.std.specs.Prelude.{◌≡◌, ◌<◌, OnOk, true, is_some};
ghost use Rattle.vq_model.specs.declared.script.Command.TheVariants.{Fill};
ghost use Rattle.vq_model.specs.declared.statement.Statement.TheVariants.{AddCommand, AddFence, AddSignal, AddWait, BeginBatch};
ghost use Rattle.vq_model.specs.declared.statement.Statement.TheVariants.{DeclareBuffer, DeclareQueue, DeclareSemaphore};
ghost use Rattle.vq_script.specs.declared.said.Said.TheVariants.{Buffer as SaidBuffer, Semaphore as SaidSemaphore};
ghost use Rattle.vq_script.specs.declared.said.Said.TheVariants.{Queue as SaidQueue};
ghost use Rattle.vq_script.specs.Holds.{kept, open_so_far, with_step};
ghost use Rattle.vq_script.specs.SaidLines.{May, after, ended, part_in, statement_in};

use crate::host_steps::owned_step;
use crate::known::Known;
use crate::open_batch::OpenBatch;
use crate::said::Said;
use std::alloc::{AllocError, Global};
use vq_lexer::{hex_bytes, owned_name};
use vq_model::list::Bytes;
use vq_model::script::{
    Buffer, Command, FillSize, HostLine, Job, Mode, Pair, Queue, Semaphore, SemaphoreKind, Turn,
};

/// A fill of a buffer with a word.
fn fill(buffer: u32, offset: u32, size: FillSize, word: u32) -> Command
    ensures { result ≡ Fill buffer offset size word }
{
    Command::Fill {
        buffer,
        offset,
        size,
        word,
    }
}

impl Known {
    /// Adds what a line without a fault says.
    #[inline(always)]
    pub fn add(&mut self, alloc: Global, number: u32, said: Said<'_>) -> Result<(), AllocError>
        requires { May (kept self.old) (open_so_far self.old.batch) said }
        ensures { OnOk result ((kept self.new, open_so_far self.new.batch)
            ≡ after number (statement_in (kept self.old) said.entry) (kept self.old) (open_so_far self.old.batch)) }
    {
        match said {
            Said::Buffer { name, size } => self.declare_buffer(alloc, number, name, size),
            Said::Semaphore { name, kind } => self.declare_semaphore(alloc, number, name, kind),
            Said::Queue { name, mode } => self.declare_queue(alloc, number, name, mode),
            Said::Submit { queue } => self.begin_batch(alloc, number, queue),
            Said::Wait { pair, from } => self.add_wait(number, pair, from as u32),
            Said::Signal { pair } => self.add_signal(number, pair),
            Said::Fence { fence } => self.add_fence(number, fence),
            Said::End => self.end_batch(),
            Said::Host { step } => {
                let step = owned_step(alloc, self, step)?;
                self.add_step(HostLine { line: number, step })
            }
            Said::Schedule => {
                self.scheduled = true;
                Ok(())
            }
            Said::Turns { actor, count } => {
                let line = number;
                self.add_turns(Turn { line, actor }, count)
            }
            command => self.add_said_command(alloc, number, command),
        }
    }

    /// Declares a buffer.
    fn declare_buffer(
        &mut self,
        alloc: Global,
        number: u32,
        name: &[u8],
        size: u64,
    ) -> Result<(), AllocError>
        requires may { May (kept self.old) (open_so_far self.old.batch) (SaidBuffer name size) }
        ensures { OnOk result ((kept self.new, open_so_far self.new.batch)
            ≡ after number (DeclareBuffer name.now size) (kept self.old) (open_so_far self.old.batch)) }
    {
        let name = owned_name(alloc, name)?;
        let buffer = Buffer {
            line: number,
            name,
            size: size as u32,
        };
        self.add_buffer(alloc, buffer)
    }

    /// Declares a timeline, a binary semaphore or a fence.
    fn declare_semaphore(
        &mut self,
        alloc: Global,
        number: u32,
        name: &[u8],
        kind: SemaphoreKind,
    ) -> Result<(), AllocError>
        requires may { May (kept self.old) (open_so_far self.old.batch) (SaidSemaphore name kind) }
        ensures { OnOk result ((kept self.new, open_so_far self.new.batch)
            ≡ after number (DeclareSemaphore name.now kind) (kept self.old) (open_so_far self.old.batch)) }
    {
        let name = owned_name(alloc, name)?;
        let semaphore = Semaphore {
            line: number,
            name,
            kind,
        };
        self.add_semaphore(alloc, semaphore)
    }

    /// Declares a queue.
    fn declare_queue(
        &mut self,
        alloc: Global,
        number: u32,
        name: &[u8],
        mode: Mode,
    ) -> Result<(), AllocError>
        requires may { May (kept self.old) (open_so_far self.old.batch) (SaidQueue name mode) }
        ensures { OnOk result ((kept self.new, open_so_far self.new.batch)
            ≡ after number (DeclareQueue name.now mode) (kept self.old) (open_so_far self.old.batch)) }
    {
        let name = owned_name(alloc, name)?;
        let queue = Queue {
            line: number,
            name,
            mode,
        };
        self.add_queue(alloc, queue)
    }

    /// Begins a batch.
    #[inline(always)]
    fn begin_batch(&mut self, alloc: Global, number: u32, queue: u32) -> Result<(), AllocError>
        ensures { OnOk result ((kept self.new, open_so_far self.new.batch)
            ≡ after number (BeginBatch queue) (kept self.old) (open_so_far self.old.batch)) }
    {
        let batch = OpenBatch::like(alloc, number, queue, self.jobs.last())?;
        self.batch = Some(batch);
        Ok(())
    }

    /// Adds a wait to the open batch.
    #[inline(always)]
    fn add_wait(&mut self, number: u32, pair: Pair, from: u32) -> Result<(), AllocError>
        requires open { is_some (open_so_far self.old.batch) ≡ true }
        ensures { OnOk result ((kept self.new, open_so_far self.new.batch)
            ≡ after number (AddWait pair from) (kept self.old) (open_so_far self.old.batch)) }
    {
        let Some(batch) = &mut self.batch else {
            unreachable!()
        };
        batch.add_wait(number, pair, from)
    }

    /// Adds a signal to the open batch.
    #[inline(always)]
    fn add_signal(&mut self, number: u32, pair: Pair) -> Result<(), AllocError>
        requires open { is_some (open_so_far self.old.batch) ≡ true }
        ensures { OnOk result ((kept self.new, open_so_far self.new.batch)
            ≡ after number (AddSignal pair) (kept self.old) (open_so_far self.old.batch)) }
    {
        let Some(batch) = &mut self.batch else {
            unreachable!()
        };
        batch.add_signal(number, pair)
    }

    /// Adds a fence to the open batch.
    fn add_fence(&mut self, number: u32, fence: u32) -> Result<(), AllocError>
        requires open { is_some (open_so_far self.old.batch) ≡ true }
        ensures { OnOk result ((kept self.new, open_so_far self.new.batch)
            ≡ after number (AddFence fence) (kept self.old) (open_so_far self.old.batch)) }
    {
        let Some(batch) = &mut self.batch else {
            unreachable!()
        };
        batch.add_fence(number, fence);
        Ok(())
    }

    /// Adds the command that a line says to the open batch.
    #[inline(always)]
    fn add_said_command(
        &mut self,
        alloc: Global,
        number: u32,
        said: Said<'_>,
    ) -> Result<(), AllocError>
        requires may { May (kept self.old) (open_so_far self.old.batch) said }
        requires command { part_in said ≡ 2 }
        ensures { OnOk result ((kept self.new, open_so_far self.new.batch)
            ≡ after number (statement_in (kept self.old) said.entry) (kept self.old) (open_so_far self.old.batch)) }
    {
        let command = match said {
            Said::FillWhole {
                buffer,
                offset,
                word,
            } => fill(buffer, offset as u32, FillSize::Whole, word),
            Said::Fill {
                buffer,
                offset,
                size,
                word,
            } => fill(buffer, offset as u32, FillSize::Count(size as u32), word),
            Said::Update {
                buffer,
                offset,
                digits,
            } => Command::Update {
                buffer,
                offset: offset as u32,
                bytes: Bytes::of(hex_bytes(alloc, digits)?),
            },
            Said::Copy {
                source,
                source_offset,
                target,
                target_offset,
                size,
            } => Command::Copy {
                source,
                source_offset: source_offset as u32,
                target,
                target_offset: target_offset as u32,
                size: size as u32,
            },
            _ => unreachable!(),
        };
        self.add_command(number, command)
    }

    /// Adds a command to the open batch.
    #[inline(always)]
    fn add_command(&mut self, number: u32, command: Command) -> Result<(), AllocError>
        requires open { is_some (open_so_far self.old.batch) ≡ true }
        requires room { self.old.commands < self.old.limits.commands }
        ensures { OnOk result ((kept self.new, open_so_far self.new.batch)
            ≡ after number (AddCommand command) (kept self.old) (open_so_far self.old.batch)) }
    {
        let Some(batch) = &mut self.batch else {
            unreachable!()
        };
        batch.add_command(number, command)?;
        self.commands += 1;
        Ok(())
    }

    /// Adds a step of the host.
    fn add_step(&mut self, line: HostLine) -> Result<(), AllocError>
        ensures added { OnOk result (kept self.new ≡ with_step (kept self.old) line) }
        ensures open { self.new.batch ≡ self.old.batch }
    {
        self.jobs.push(Job::Host(line))?;
        Ok(())
    }

    /// Ends the open batch.
    #[inline(always)]
    fn end_batch(&mut self) -> Result<(), AllocError>
        ensures { OnOk result ((kept self.new, open_so_far self.new.batch)
            ≡ ended (kept self.old) (open_so_far self.old.batch)) }
    {
        if let Some(batch) = self.batch.take() {
            self.jobs.push(Job::Batch(batch.end()))?;
        }
        Ok(())
    }
}
