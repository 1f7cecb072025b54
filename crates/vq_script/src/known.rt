//! What the lines so far declare and submit.
ghost use Rattle.std.specs.Prelude.{◌≡◌, ◌+◌, ◌<◌, ◌≤◌, ◌^◌, ◌||◌, ◌++◌, ◌∷◌, [], ℕ};
ghost use Rattle.std.specs.Prelude.{List, nat_lt, length, false, is_some};
ghost use Rattle.std.specs.Prelude.{not, true, All, OnOk};
ghost use Rattle.vq_model.specs.Forms.{Slot};
ghost use Rattle.vq_model.specs.Context.{number_in as number_among, is_taken};
ghost use Rattle.vq_model.specs.Text.{is_name};
ghost use Rattle.vq_script.specs.Names.{item_of, number_in};

use crate::named_item::{NamedItem, semaphore_item};
use crate::names::Names;
use crate::open_batch::OpenBatch;
use crate::parts::ScriptParts;
use std::alloc::{AllocError, Global};
use vq_forms::Token;
use vq_lexer::{after_mark, is_marked};
use vq_model::limits::Limits;
use vq_model::script::{ActorName, Buffer, Job, Queue, Semaphore, Turn};
use vq_model::statement::Section;

/// What the lines so far declare and submit.
#[derive(Drop)]
pub struct Known {
    /// Whether no line with words has come.
    pub first: bool,
    pub version: u32,
    /// The limits of the version.
    pub limits: Limits,
    pub buffers: Vec<Buffer>,
    /// The bytes of all buffers together.
    pub bytes: u32,
    /// Timelines, binary semaphores and fences.
    pub semaphores: Vec<Semaphore>,
    pub queues: Vec<Queue>,
    /// The steps of the host, and the batches that have ended.
    pub jobs: Vec<Job>,
    /// The commands of all batches together.
    pub commands: u32,
    /// The batch that is open. None is open in the schedule.
    pub batch: Option<OpenBatch>,
    /// Whether the schedule has begun.
    pub scheduled: bool,
    /// The turns of the schedule so far.
    pub turns: Vec<Turn>,
    /// What each declared name stands for.
    names: Names,
    ghost small_bytes: { limits.bytes < 2 ^ 32 },
    ghost small_buffers: { limits.buffers < 2 ^ 32 },
    ghost small_semaphores: { limits.semaphores < 2 ^ 32 },
    ghost small_queues: { limits.queues ≤ 16 },
    ghost small_commands: { limits.commands < 2 ^ 32 },
    ghost small_batches: { limits.batch_commands + 2 ≤ 2 ^ 32 },
    ghost few_bytes: { bytes ≤ limits.bytes },
    ghost few_buffers: { length buffers.items ≤ limits.buffers },
    ghost few_semaphores: { length semaphores.items ≤ limits.semaphores },
    ghost few_queues: { length queues.items ≤ limits.queues },
    ghost all_names: { (place : Slot) (name : List ℕ) → number_in place (item_of names.map name)
        ≡ number_among buffers.items semaphores.items queues.items place name },
    ghost few_turns: { length turns.items ≤ limits.turns },
    ghost named_buffers: { All (λ b. is_name b.name ≡ true) buffers.items },
    ghost named_semaphores: { All (λ s. is_name s.name ≡ true) semaphores.items },
    ghost named_queues: { All (λ q. is_name q.name ≡ true) queues.items },
}

impl Known {
    ghost use Rattle.std.specs.Prelude.{None};
    ghost use Rattle.vq_model.specs.Context.{size_in};
    ghost use Rattle.vq_model.specs.Meaning.{actor_at};
    ghost use Rattle.vq_model.specs.ScriptOfLines.{script_of};
    ghost use Rattle.vq_model.specs.declared.statement.Line.{Line};
    ghost use Rattle.vq_script.specs.Holds.{Holds, kept, nothing, last_part, named_fence, waits_of, waits_past};
    ghost use Rattle.vq_script.specs.Holds.{commands_of, open_jobs};
    ghost use Rattle.vq_script.specs.Parts.{script_of_parts};
    ghost use Rattle.vq_script.specs.Holds.{signals_of, open_so_far, section_of, with_buffer, with_semaphore};
    ghost use Rattle.vq_script.specs.Holds.{with_queue, with_turns};
    ghost use Rattle.vq_script.specs.LineTests.{number_of};
    ghost use Rattle.vq_forms.specs.Table.{place_of};

    /// What no lines declare and submit, or the line that names the version.
    pub fn new(alloc: Global, version: u32, first: bool) -> Known
        ensures kept { kept result ≡ nothing version }
        ensures open { result.batch ≡ None }
        ensures first { result.first ≡ first }
    {
        Known {
            first,
            version,
            limits: Limits::of(version),
            buffers: Vec::new(alloc),
            bytes: 0,
            semaphores: Vec::new(alloc),
            queues: Vec::new(alloc),
            jobs: Vec::new(alloc),
            commands: 0,
            batch: None,
            scheduled: false,
            turns: Vec::new(alloc),
            names: Names::new(alloc),
        }
    }

    /// The parts of the script of lines outside a batch.
    pub fn into_parts(self) -> ScriptParts
        ensures { (lines : List Line) → Holds lines (kept self) None → script_of_parts result ≡ script_of lines }
    {
        ScriptParts {
            version: self.version,
            buffers: self.buffers,
            semaphores: self.semaphores,
            queues: self.queues,
            jobs: self.jobs,
            scheduled: self.scheduled,
            turns: self.turns,
        }
    }

    /// The part of the text in which the next line stands.
    pub fn section(&self) -> Section
        ensures { result ≡ section_of self.now.scheduled (open_so_far self.now.batch) }
    {
        match self.batch {
            None if self.scheduled => Section::InSchedule,
            None => Section::Outside,
            Some(_) => Section::InBatch,
        }
    }

    /// The number of what has this name, if it is of the kind that a place needs.
    #[inline(always)]
    #[tactic(auto, unfolding(crate::specs::LineTests::number_of))]
    pub fn number_of(&self, place: Token, name: &[u8]) -> Option<u32>
        ensures { result ≡ number_of (kept self.now) (place_of place) name.now }
    {
        self.names.get(name)?.number(place)
    }

    /// The actor of the schedule that a word names: the host, or after a letter and a colon the
    /// thread of a threaded queue or the device's side of a queue.
    #[inline(always)]
    pub fn actor(&self, word: &[u8]) -> Option<ActorName>
        ensures { result ≡ actor_at (number_of (kept self.now)) word.now }
    {
        if word == b"host".as_slice() {
            return Some(ActorName::Host);
        }
        let name = after_mark(word);
        if is_marked(b'S', word) {
            Some(ActorName::Submit(self.number_of(Token::ThreadedToken, name)?))
        } else {
            Some(ActorName::Ring(self.number_of(Token::QueueToken, name)?))
        }
    }

    /// Whether something that is declared has this name.
    pub fn is_declared(&self, name: &[u8]) -> bool
        ensures { result ≡ is_taken self.now.buffers.items self.now.semaphores.items
            self.now.queues.items name.now }
    {
        self.names.get(name).is_some()
    }

    /// The size of a buffer.
    pub fn size_of(&self, buffer: u32) -> u32
        ensures { result ≡ size_in self.now.buffers.items buffer }
    {
        match self.buffers.get(buffer as usize) {
            Some(buffer) => buffer.size,
            None => 0,
        }
    }

    /// Whether a batch has begun, or a step of the host has come.
    pub fn has_begun(&self) -> bool
        ensures { result ≡ (is_some (open_so_far self.now.batch)
            || nat_lt 0 (length self.now.jobs.items)) }
    {
        self.batch.is_some() || !self.jobs.is_empty()
    }

    /// The jobs so far, with the open batch.
    pub fn job_count(&self) -> usize
        ensures { result ≡ length self.now.jobs.items + open_jobs (open_so_far self.now.batch) }
    {
        match self.batch {
            None => self.jobs.len(),
            Some(_) => self.jobs.len() + 1,
        }
    }

    /// The last part of the open batch of which there is a line, 0 where there is none.
    #[inline(always)]
    pub fn last_part(&self) -> u32
        ensures { result ≡ last_part (open_so_far self.now.batch) }
    {
        match &self.batch {
            None => 0,
            Some(batch) => batch.last_part(),
        }
    }

    /// Whether the open batch names a fence.
    pub fn has_fence(&self) -> bool
        ensures { result ≡ is_some (named_fence (open_so_far self.now.batch)) }
    {
        match &self.batch {
            None => false,
            Some(batch) => batch.fence.is_some(),
        }
    }

    /// The waits of the open batch.
    fn open_waits(&self) -> usize
        ensures { result ≡ length (waits_of (open_so_far self.now.batch)) }
    {
        match &self.batch {
            None => 0,
            Some(batch) => batch.waits.len(),
        }
    }

    /// The commands of the open batch.
    fn open_commands(&self) -> usize
        ensures { result ≡ length (commands_of (open_so_far self.now.batch)) }
    {
        match &self.batch {
            None => 0,
            Some(batch) => batch.commands.len(),
        }
    }

    /// The signals of the open batch.
    fn open_signals(&self) -> usize
        ensures { result ≡ length (signals_of (open_so_far self.now.batch)) }
    {
        match &self.batch {
            None => 0,
            Some(batch) => batch.signals.len(),
        }
    }

    /// Whether a wait of the open batch names a place past its commands and the one behind them.
    pub fn waits_too_far(&self) -> bool
        ensures { result ≡ waits_past (length (commands_of (open_so_far self.now.batch)) + 1)
            (waits_of (open_so_far self.now.batch)) }
    {
        match &self.batch {
            None => false,
            Some(batch) => batch.waits_too_far(),
        }
    }

    /// Whether one wait more is too much.
    pub fn has_all_waits(&self) -> bool
        ensures { result ≡ not (nat_lt (length (waits_of (open_so_far self.now.batch)))
            self.now.limits.waits) }
    {
        self.open_waits() >= self.limits.waits as usize
    }

    /// Whether one command more is too much, in all or in the open batch.
    pub fn has_all_commands(&self) -> bool
        ensures { result ≡ (not (nat_lt self.now.commands self.now.limits.commands)
            || not (nat_lt (length (commands_of (open_so_far self.now.batch)))
            self.now.limits.batch_commands)) }
    {
        self.commands >= self.limits.commands
            || self.open_commands() >= self.limits.batch_commands as usize
    }

    /// Whether one signal more is too much.
    pub fn has_all_signals(&self) -> bool
        ensures { result ≡ not (nat_lt (length (signals_of (open_so_far self.now.batch)))
            self.now.limits.signals) }
    {
        self.open_signals() >= self.limits.signals as usize
    }

    /// Declares a buffer, whose name is new. For want of memory all stays as it was.
    pub fn add_buffer(&mut self, alloc: Global, buffer: Buffer) -> Result<(), AllocError>
        requires room { length self.old.buffers.items < self.old.limits.buffers }
        requires few_bytes { self.old.bytes + buffer.size ≤ self.old.limits.bytes }
        requires fresh { is_taken self.old.buffers.items self.old.semaphores.items
            self.old.queues.items buffer.name ≡ false }
        requires named { is_name buffer.name ≡ true }
        ensures added { OnOk result (kept self.new ≡ with_buffer (kept self.old) buffer) }
        ensures open { self.new.batch ≡ self.old.batch }
    {
        let name = Vec::from_slice(alloc, buffer.name.as_slice())?;
        let item = NamedItem::Buffer(self.buffers.len() as u32);
        // Room comes first, so that the name never stands in the map without its buffer.
        self.buffers.reserve(1)?;
        self.names.insert(alloc, name, item)?;
        self.bytes += buffer.size;
        self.buffers.push_reserved(buffer);
        Ok(())
    }

    /// Declares a timeline, a binary semaphore or a fence, whose name is new. For want of memory
    /// all stays as it was.
    pub fn add_semaphore(&mut self, alloc: Global, semaphore: Semaphore) -> Result<(), AllocError>
        requires room { length self.old.semaphores.items < self.old.limits.semaphores }
        requires fresh { is_taken self.old.buffers.items self.old.semaphores.items
            self.old.queues.items semaphore.name ≡ false }
        requires named { is_name semaphore.name ≡ true }
        ensures added { OnOk result (kept self.new ≡ with_semaphore (kept self.old) semaphore) }
        ensures open { self.new.batch ≡ self.old.batch }
    {
        let name = Vec::from_slice(alloc, semaphore.name.as_slice())?;
        let item = semaphore_item(semaphore.kind, self.semaphores.len() as u32);
        self.semaphores.reserve(1)?;
        self.names.insert(alloc, name, item)?;
        self.semaphores.push_reserved(semaphore);
        Ok(())
    }

    /// Declares a queue, whose name is new. For want of memory all stays as it was.
    pub fn add_queue(&mut self, alloc: Global, queue: Queue) -> Result<(), AllocError>
        requires room { length self.old.queues.items < self.old.limits.queues }
        requires fresh { is_taken self.old.buffers.items self.old.semaphores.items
            self.old.queues.items queue.name ≡ false }
        requires named { is_name queue.name ≡ true }
        ensures added { OnOk result (kept self.new ≡ with_queue (kept self.old) queue) }
        ensures open { self.new.batch ≡ self.old.batch }
    {
        let name = Vec::from_slice(alloc, queue.name.as_slice())?;
        let item = NamedItem::Queue(self.queues.len() as u32, queue.mode);
        self.queues.reserve(1)?;
        self.names.insert(alloc, name, item)?;
        self.queues.push_reserved(queue);
        Ok(())
    }

    /// Adds turns of one actor, of which there are so few. For want of memory some of them may stand.
    pub fn add_turns(&mut self, turn: Turn, count: u64) -> Result<(), AllocError>
        requires room { length self.old.turns.items + count ≤ self.old.limits.turns }
        ensures added { OnOk result (kept self.new
            ≡ with_turns (kept self.old) turn.line turn.actor count) }
        ensures open { self.new.batch ≡ self.old.batch }
    {
        for _ in 0..count {
            self.add_turn(turn)?;
        }
        Ok(())
    }

    /// Adds a turn.
    fn add_turn(&mut self, turn: Turn) -> Result<(), AllocError>
        requires room { length self.old.turns.items < self.old.limits.turns }
        ensures added { OnOk result (kept self.new ≡ with_turns (kept self.old) turn.line turn.actor 1) }
        ensures open { self.new.batch ≡ self.old.batch }
    {
        self.turns.push(turn)?;
        Ok(())
    }
}
