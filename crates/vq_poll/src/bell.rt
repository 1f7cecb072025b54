//! What the waits for a chain hear.
//!
//! Source: this project's own.
ghost use Rattle.futures.specs.Task.{Hears, IsArmed, Keeps};
ghost use Rattle.std.specs.Prelude.{ℕ, ◌≡◌};

use futures::spin::lock;
use futures::task::{Context, Poll, Source};
use futures::util::wait_list::WaitList;
use std::alloc::{AllocError, Global};
use std::sync::Mutex;

/// A chain's bell. Any number of waits hear it, and who makes a signal of the chain rings it after the step.
#[derive(Drop)]
pub struct Bell {
    pub(crate) source: Source,
    waiting: Mutex<WaitList<()>>,
}

/// Leaves the task's waker with a waiter, which is put in the queue if it isn't there. Where there is no such
/// waiter the task is polled again at once.
fn park(cx: &mut Context<'_>, source: &Source, waiting: &mut WaitList<()>, key: usize) -> Poll<()>
    ensures armed { IsArmed cx.new }
    ensures heard { Hears cx.new source.now.id }
    ensures kept { Keeps cx.old cx.new }
{
    if waiting.is_queued(key) {
        return waiting.register(cx, source, key);
    }
    if waiting.get(key).is_none() {
        return cx.yield_now();
    }
    waiting.enqueue(key);
    waiting.register(cx, source, key)
}

impl Bell {
    /// A bell that nothing hears yet. The error is want of memory.
    pub fn new(alloc: Global) -> Result<Bell, AllocError> {
        let waiting = Mutex::new(WaitList::new(alloc)?);
        let source = Source::new();
        Ok(Bell { source, waiting })
    }

    /// Wakes each task whose wait has registered here since the last ring. It takes no memory.
    pub fn ring(&self) {
        if let Some(mut waiting) = lock(&self.waiting) {
            waiting.wake_all();
        }
    }

    /// A seat at the bell, under a key. There is none where the lock couldn't be taken in 2^64 tries. The error is
    /// want of memory.
    pub(crate) fn enter(&self) -> Result<Option<usize>, AllocError> {
        let Some(mut waiting) = lock(&self.waiting) else {
            return Ok(None);
        };
        let ticket = waiting.insert(())?;
        Ok(Some(waiting.redeem(ticket)))
    }

    /// Registers the task at the bell.
    pub(crate) fn hear(&self, cx: &mut Context<'_>, key: usize)
        ensures armed { IsArmed cx.new }
        ensures heard { Hears cx.new self.now.source.id }
        ensures kept { Keeps cx.old cx.new }
    {
        let _ = match lock(&self.waiting) {
            Some(mut waiting) => park(cx, &self.source, &mut *waiting, key),
            None => cx.yield_now(),
        };
    }

    /// Gives the seat up.
    pub(crate) fn leave(&self, key: usize) {
        if let Some(mut waiting) = lock(&self.waiting) {
            waiting.remove(key);
        }
    }
}
