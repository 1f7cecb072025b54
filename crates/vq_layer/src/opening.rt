//! Opening and closing timelines, binary semaphores and queues.
ghost use Rattle.std.specs.Prelude.{◌≡◌, None, Some, IfErr, OnErr, OnOk, IfOk, length};
ghost use Rattle.vq_live.specs.Live.{opened};
ghost use Rattle.vq_live.specs.Calls.{held_from};
ghost use Rattle.vq_layer.specs.declared.answers.Kind.TheVariants as kind_as;
ghost use Rattle.vq_layer.specs.Layer.{live_at};
ghost use Rattle.vq_layer.specs.Names.{is_closed, free_from};
ghost use Rattle.vq_layer.specs.Queues.{first_naming};
ghost use Rattle.vq_layer.specs.Calls.{free_number, after_open, after_open_binary, after_open_queue, close_fault, after_close};

use crate::layer::LiveLayer;
use crate::naming::kind_at;
use crate::queue::LiveQueue;
use crate::{CloseFault, Kind};
use std::alloc::{AllocError, Global};
use vq_live::LiveTimeline;

// Whether a number stands for nothing.
fn is_closed(kind: Kind) -> bool
    ensures { result ≡ is_closed kind }
{
    match kind {
        Kind::Closed => true,
        Kind::Timeline => false,
        Kind::Binary {
            signals: _,
            taken: _,
        } => false,
    }
}

// The first number that stands for nothing, or how many numbers there are.
fn free_number(kinds: &[Kind]) -> usize
    ensures { result ≡ free_from 0 kinds.now }
{
    for i in 0..kinds.len() {
        if is_closed(kinds[i]) {
            return i;
        }
    }
    kinds.len()
}

// The first point of a timeline that is held.
#[tactic(auto, using(crate::proofs::Lookups::read_live, std::proofs::lemmas::List::set_past))]
fn first_held(timelines: &[LiveTimeline], n: u32) -> Option<u32>
    ensures { result ≡ held_from 0 (live_at timelines.now n).slots }
{
    if n as usize >= timelines.len() {
        return None;
    }
    timelines[n as usize].first_held()
}

impl LiveLayer {
    /// Opens a timeline that has reached this value. Its number is the first one that stands for nothing. It wants memory,
    /// or one of 2^32 numbers.
    pub fn open_timeline(&mut self, alloc: Global, initial: u64) -> Result<u32, AllocError>
        ensures number { IfOk result (λ number. number ≡ free_number self.old) }
        ensures after { OnOk result (self.new ≡ after_open self.old (opened initial) kind_as.Timeline) }
        ensures unchanged { OnErr result (self.new ≡ self.old) }
    {
        self.open(alloc, initial, Kind::Timeline)
    }

    /// Opens a binary semaphore or a fence, unsignaled or signaled once.
    pub fn open_binary(&mut self, alloc: Global, signaled: bool) -> Result<u32, AllocError>
        ensures number { IfOk result (λ number. number ≡ free_number self.old) }
        ensures after { OnOk result (self.new ≡ after_open_binary self.old signaled) }
        ensures unchanged { OnErr result (self.new ≡ self.old) }
    {
        if signaled {
            let kind = Kind::Binary {
                signals: 1,
                taken: 0,
            };
            return self.open(alloc, 1, kind);
        }
        let kind = Kind::Binary {
            signals: 0,
            taken: 0,
        };
        self.open(alloc, 0, kind)
    }

    // Opens a timeline for what a number is to stand for.
    fn open(&mut self, alloc: Global, initial: u64, kind: Kind) -> Result<u32, AllocError>
        ensures number { IfOk result (λ number. number ≡ free_number self.old) }
        ensures after { OnOk result (self.new ≡ after_open self.old (opened initial) kind) }
        ensures unchanged { OnErr result (self.new ≡ self.old) }
    {
        let number = free_number(&self.kinds);
        let Ok(n) = u32::try_from(number) else {
            return Err(AllocError);
        };
        let timeline = LiveTimeline::new(alloc, initial);
        if number < self.kinds.len() {
            self.timelines[number] = timeline;
            self.kinds[number] = kind;
            return Ok(n);
        }
        self.timelines.reserve(1)?;
        self.kinds.reserve(1)?;
        self.timelines.push_reserved(timeline);
        self.kinds.push_reserved(kind);
        Ok(n)
    }

    /// Opens a queue. Its number is that of the queues before it.
    pub fn open_queue(&mut self, alloc: Global) -> Result<u32, AllocError>
        ensures number { IfOk result (λ number. number ≡ length self.old.queues) }
        ensures after { OnOk result (self.new ≡ after_open_queue self.old) }
        ensures unchanged { OnErr result (self.new ≡ self.old) }
    {
        let Ok(number) = u32::try_from(self.queues.len()) else {
            return Err(AllocError);
        };
        self.queues.push(LiveQueue::new(alloc))?;
        Ok(number)
    }

    // The first queue with a batch that names a timeline.
    fn first_naming(&self, timeline: u32) -> Option<u32>
        ensures { result ≡ first_naming timeline 0 self.now.queues }
    {
        for i in 0..self.queues.len() {
            if self.queues[i].some_names(timeline) {
                return Some(i as u32);
            }
        }
        None
    }

    // Why a timeline can't be closed.
    fn close_fault(&self, timeline: u32) -> Option<CloseFault>
        ensures { result ≡ close_fault self.now timeline }
    {
        if is_closed(kind_at(&self.kinds, timeline)) {
            return Some(CloseFault::NoTimeline);
        }
        if let Some(queue) = self.first_naming(timeline) {
            return Some(CloseFault::Named { queue });
        }
        match first_held(&self.timelines, timeline) {
            None => None,
            Some(point) => Some(CloseFault::Held { point }),
        }
    }

    /// Closes a timeline, a binary semaphore or a fence that no unfinished batch names and of which no point is held. Its
    /// number stands for nothing then, and is opened again first.
    #[tactic(auto, using(crate::proofs::Lookups::read_live, crate::proofs::Lookups::read_kind, std::proofs::lemmas::List::set_past))]
    pub fn close(&mut self, alloc: Global, timeline: u32) -> Result<(), CloseFault>
        ensures ok { OnOk result (close_fault self.old timeline ≡ None) }
        ensures err { IfErr result (λ fault. close_fault self.old timeline ≡ Some fault) }
        ensures after { OnOk result (self.new ≡ after_close self.old timeline) }
        ensures unchanged { OnErr result (self.new ≡ self.old) }
    {
        if let Some(fault) = self.close_fault(timeline) {
            return Err(fault);
        }
        if (timeline as usize) < self.timelines.len() {
            self.timelines[timeline as usize] = LiveTimeline::new(alloc, 0);
        }
        if (timeline as usize) < self.kinds.len() {
            self.kinds[timeline as usize] = Kind::Closed;
        }
        Ok(())
    }
}
