//! Blocks: the lines of an application's host threads beside the main one.
use vq_model::list::{List, Name};
use vq_model::script::Pair;

/// What a host thread does.
#[derive(Drop)]
pub enum ThreadStep {
    /// Waits until all pairs are reached. Source: Vulkan 1.3, vkWaitSemaphores.
    Wait(List<Pair>),
    /// Signals a timeline semaphore. Source: Vulkan 1.3, vkSignalSemaphore.
    Signal(Pair),
}

/// A step of a host thread with its line.
#[derive(Drop)]
pub struct ThreadLine {
    pub line: u32,
    pub step: ThreadStep,
}

/// A host thread beside the main one: its steps come one after another.
#[derive(Drop)]
pub struct HostThread {
    pub line: u32,
    pub name: Name,
    pub steps: List<ThreadLine>,
}

/// The forms of a block's lines.
#[derive(Clone, Copy)]
pub enum BlockForm {
    ThreadForm,
    WaitForm,
    SignalForm,
    EndForm,
}

/// What a line of a block says.
#[derive(Drop)]
pub enum BlockStatement {
    BeginThread { name: Name },
    TakeStep { step: ThreadStep },
    EndThread,
}
