//! The live layer: its state, and what a queue's batches go through.
ghost use Rattle.std.specs.Prelude.{◌≡◌, None, Some, IfErr, OnErr, OnOk, IfOk, IfNone, IfSome, length};
ghost use Rattle.std.specs.Option.{option_map, option_copied};
ghost use Rattle.std.specs.List.{slice_get};
ghost use Rattle.vq_layer.specs.Layer.{no_layer};
ghost use Rattle.vq_layer.specs.Calls.{blocked_of, after_release_of, next_of, oldest_in, after_finish_of};

use crate::queue::LiveQueue;
use crate::{Blocked, Kind};
use std::alloc::Global;
use std::marker::Model;
use vq_live::LiveTimeline;

/// The timelines, binary semaphores and queues of a device that learns its batches as they are submitted. Both are
/// numbers, counted from 0; a fence is a binary semaphore that the host resets. A layer waits for nobody and has no lock:
/// the caller's lock is the borrow. No call but `open_timeline`, `open_binary`, `open_queue` and `submit` needs memory.
/// This project's own.
#[derive(Drop)]
pub struct LiveLayer {
    pub(crate) timelines: Vec<LiveTimeline>,
    pub(crate) kinds: Vec<Kind>,
    pub(crate) queues: Vec<LiveQueue>,
    // How many waits the batches have that aren't finished.
    pub(crate) waits: usize,
}

impl Model for LiveLayer {
    ghost use Rattle.vq_layer.specs.Layer.{Layer};

    ghost Value = { Layer };

    ghost use Rattle.vq_layer.specs.LayerFields.{layer_of, IsLayer};

    ghost view = { layer_of };

    ghost invariant = { IsLayer };
}

impl LiveLayer {
    /// No timelines and no queues.
    pub fn new(alloc: Global) -> LiveLayer
        ensures { result ≡ no_layer }
    {
        LiveLayer {
            timelines: Vec::new(alloc),
            kinds: Vec::new(alloc),
            queues: Vec::new(alloc),
            waits: 0,
        }
    }

    /// A queue, for its batches.
    pub fn queue(&self, queue: u32) -> Option<&LiveQueue>
        ensures { option_copied result ≡ slice_get self.now.queues queue }
    {
        self.queues.get(queue as usize)
    }

    /// What the first held-back batch of a queue is blocked by; `None` where it is ready.
    #[tactic(auto, using(crate::proofs::Lookups::read_live, crate::proofs::Lookups::read_queue, std::proofs::lemmas::List::set_past))]
    pub fn blocked(&self, queue: u32) -> Option<Blocked>
        ensures { result ≡ blocked_of self.now queue }
    {
        if queue as usize >= self.queues.len() {
            return Some(Blocked::NoQueue);
        }
        self.queues[queue as usize].blocked(&self.timelines)
    }

    /// The ready queue of least number, if any is.
    pub fn next(&self) -> Option<u32>
        ensures { result ≡ next_of self.now }
    {
        for i in 0..self.queues.len() {
            if self.queues[i].blocked(&self.timelines).is_none() {
                return Some(i as u32);
            }
        }
        None
    }

    /// Releases the first held-back batch of a queue: it holds the points that it waits for, and its operations are
    /// pending from then on. Hand it to the device after that.
    #[tactic(auto, using(crate::proofs::Lookups::read_live, crate::proofs::Lookups::read_queue, std::proofs::lemmas::List::set_past))]
    pub fn release(&mut self, queue: u32) -> Result<(), Blocked>
        ensures ok { OnOk result (blocked_of self.old queue ≡ None) }
        ensures err { IfErr result (λ cause. blocked_of self.old queue ≡ Some cause) }
        ensures after { OnOk result (self.new ≡ after_release_of self.old queue) }
        ensures unchanged { OnErr result (self.new ≡ self.old) }
    {
        if let Some(cause) = self.blocked(queue) {
            return Err(cause);
        }
        self.queues[queue as usize].release(&mut self.timelines);
        Ok(())
    }

    /// The oldest released batch of a queue is done on the device: its references are given back. Its token is answered,
    /// or `None` where nothing is released.
    #[tactic(auto, using(crate::proofs::Lookups::read_live, crate::proofs::Lookups::read_queue, std::proofs::lemmas::List::set_past))]
    pub fn finish(&mut self, queue: u32) -> Option<u64>
        ensures token { result ≡ option_map (λ b. b.token) (oldest_in self.old queue) }
        ensures after { self.new ≡ after_finish_of self.old queue }
    {
        if queue as usize >= self.queues.len() {
            return None;
        }
        match self.queues[queue as usize].finish(&mut self.timelines) {
            None => None,
            Some((token, waits)) => {
                self.waits = self.waits.saturating_sub(waits);
                Some(token)
            }
        }
    }
}
