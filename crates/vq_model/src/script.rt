//! A script as data: what its text declares and submits. Lines are counted from 1; buffers,
//! semaphores, queues and jobs from 0, in the order of the text.
//!
//! Source: this project's own, where an item names no other.
ghost use Rattle.std.specs.Prelude.{◌≡◌, false};
ghost use Rattle.std.specs.List.{slice_get};
ghost use Rattle.std.specs.Option.{option_map_or};
ghost use Rattle.vq_model.specs.Context.{is_binary, is_deferred, is_timeline};
ghost use Rattle.vq_model.specs.Signals.{initial_value};
ghost use Rattle.vq_model.specs.ValidScripts.{is_immediate_queue, is_threaded_queue};

use crate::list::{Bytes, List, Name};

/// A buffer of this many zero bytes. Source: Vulkan 1.3, "Buffers".
#[derive(Drop)]
pub struct Buffer {
    pub line: u32,
    pub name: Name,
    /// In bytes, from 1.
    pub size: u32,
}

/// What a name of a semaphore or a fence stands for. Source: Vulkan 1.3, "Semaphores" and "Fences".
#[derive(Clone, Copy, Debug, PartialEq, Eq)]
pub enum SemaphoreKind {
    /// A timeline semaphore with this initial payload.
    Timeline(u64),
    /// A binary semaphore, unsignaled.
    Binary,
    /// A fence, unsignaled.
    Fence,
}

impl SemaphoreKind {
    /// Whether this is a timeline semaphore.
    pub fn is_timeline(self) -> bool
        ensures { result ≡ is_timeline self }
    {
        matches!(self, SemaphoreKind::Timeline(_))
    }

    /// Whether this is a binary semaphore.
    pub fn is_binary(self) -> bool
        ensures { result ≡ is_binary self }
    {
        matches!(self, SemaphoreKind::Binary)
    }

    /// The payload before the first signal. Source: Vulkan 1.3, VkSemaphoreTypeCreateInfo; that
    /// binary semaphores and fences begin with 0 is this project's own.
    pub fn initial_value(self) -> u64
        ensures { result ≡ initial_value self }
    {
        match self {
            SemaphoreKind::Timeline(value) => value,
            _ => 0,
        }
    }
}

/// A timeline semaphore, a binary semaphore or a fence.
/// Source: Vulkan 1.3, "Semaphores" and "Fences".
#[derive(Drop)]
pub struct Semaphore {
    pub line: u32,
    pub name: Name,
    pub kind: SemaphoreKind,
}

/// How a queue is submitted to.
#[derive(Clone, Copy, Debug, PartialEq, Eq)]
pub enum Mode {
    /// By the host, which hands each batch to the device at once.
    Immediate,
    /// By the host, which holds batches back.
    Deferred,
    /// By a thread of the queue's own.
    Threaded,
}

/// A queue. Its batches run one after another. Source: Vulkan 1.3, "Queues"; that batches of a queue
/// don't overlap is this project's own.
#[derive(Drop)]
pub struct Queue {
    pub line: u32,
    pub name: Name,
    pub mode: Mode,
}

/// A timeline semaphore and a value of its payload.
/// Source: Vulkan 1.3, vkWaitSemaphores and vkSignalSemaphore.
#[derive(Clone, Copy)]
pub struct Pair {
    pub semaphore: u32,
    pub value: u64,
}

/// What the host does between submissions.
/// Source: Vulkan 1.3, "Host Operations on Semaphores", "Fences", vkDeviceWaitIdle.
#[derive(Drop)]
pub enum HostStep {
    /// Signals a timeline semaphore.
    Signal(Pair),
    /// Waits until all pairs are reached.
    WaitAll(List<Pair>),
    /// Waits until one pair is reached.
    WaitAny(List<Pair>),
    /// Asks, without waiting, whether all pairs are reached.
    PollAll(List<Pair>),
    /// Asks, without waiting, whether one pair is reached.
    PollAny(List<Pair>),
    /// Reads the payload of a timeline semaphore.
    Read(u32),
    /// Waits for a fence.
    FenceWait(u32),
    /// Asks, without waiting, whether a fence is signaled.
    FencePoll(u32),
    /// Resets a fence.
    FenceReset(u32),
    /// Waits until each batch submitted before is complete.
    Idle,
}

/// A host step with its line.
#[derive(Drop)]
pub struct HostLine {
    pub line: u32,
    pub step: HostStep,
}

/// A wait or a signal of a batch, or the fence that it names. The value is 0 for a binary semaphore
/// or a fence. A wait holds back the batch's commands from the place `from` on, counted from 1; for
/// a signal and a fence it is 1. Source: Vulkan 1.3, VkSubmitInfo and VkTimelineSemaphoreSubmitInfo;
/// places of waits are this project's own.
#[derive(Clone, Copy, Debug, PartialEq, Eq)]
pub struct Mark {
    pub line: u32,
    pub semaphore: u32,
    pub value: u64,
    pub from: u32,
}

/// How many bytes a fill writes. Source: Vulkan 1.3, vkCmdFillBuffer.
#[derive(Clone, Copy, Debug, PartialEq, Eq)]
pub enum FillSize {
    /// The rest of the buffer, rounded down to a multiple of 4.
    Whole,
    /// This many bytes, a multiple of 4.
    Count(u32),
}

/// A transfer command. Offsets and sizes are in bytes.
/// Source: Vulkan 1.3, "Clear Commands" and "Copy Commands".
#[derive(Drop)]
pub enum Command {
    /// Writes a word again and again, its least significant byte first.
    Fill {
        buffer: u32,
        offset: u32,
        size: FillSize,
        word: u32,
    },
    /// Writes these bytes.
    Update {
        buffer: u32,
        offset: u32,
        bytes: Bytes,
    },
    /// Writes what stands elsewhere.
    Copy {
        source: u32,
        source_offset: u32,
        target: u32,
        target_offset: u32,
        size: u32,
    },
}

/// A command with its line.
#[derive(Drop)]
pub struct CommandLine {
    pub line: u32,
    pub command: Command,
}

/// A batch that is submitted to a queue: its commands come after its waits, and its signals after
/// its commands. Source: Vulkan 1.3, "Queue Submission".
#[derive(Drop)]
pub struct Batch {
    pub line: u32,
    pub queue: u32,
    pub waits: List<Mark>,
    pub commands: List<CommandLine>,
    pub signals: List<Mark>,
    pub fence: Option<Mark>,
}

/// A host step or a batch.
#[derive(Drop)]
pub enum Job {
    Host(HostLine),
    Batch(Batch),
}

/// Who takes a turn.
#[derive(Clone, Copy)]
pub enum ActorName {
    Host,
    /// The submitting thread of a threaded queue.
    Submit(u32),
    /// The device's side of a queue.
    Ring(u32),
}

/// One turn of a schedule.
#[derive(Clone, Copy)]
pub struct Turn {
    pub line: u32,
    pub actor: ActorName,
}

/// A script.
#[derive(Drop)]
pub struct Script {
    /// 1, or 2 where the text begins with `version 2`.
    pub version: u32,
    pub buffers: List<Buffer>,
    pub semaphores: List<Semaphore>,
    pub queues: List<Queue>,
    pub jobs: List<Job>,
    /// Whether a schedule follows.
    pub scheduled: bool,
    pub turns: List<Turn>,
}

impl Script {
    /// Whether a queue is submitted to by a thread of its own. No queue of this number: it isn't.
    pub fn is_threaded(&self, queue: u32) -> bool
        ensures { result ≡ is_threaded_queue self.now queue }
    {
        match self.queues.as_slice().get(queue as usize) {
            Some(queue) => matches!(queue.mode, Mode::Threaded),
            None => false,
        }
    }

    /// Whether a queue is submitted to by the host, which holds its batches back. No queue of this
    /// number: it isn't.
    pub fn is_deferred(&self, queue: u32) -> bool
        ensures { result ≡ option_map_or (λ x. is_deferred x.mode) (slice_get self.now.queues queue) false }
    {
        match self.queues.as_slice().get(queue as usize) {
            Some(queue) => matches!(queue.mode, Mode::Deferred),
            None => false,
        }
    }

    /// Whether a queue is submitted to by the host, which hands each batch to the device at once. No
    /// queue of this number: it isn't.
    pub fn is_immediate(&self, queue: u32) -> bool
        ensures { result ≡ is_immediate_queue self.now queue }
    {
        match self.queues.as_slice().get(queue as usize) {
            Some(queue) => matches!(queue.mode, Mode::Immediate),
            None => false,
        }
    }
}
