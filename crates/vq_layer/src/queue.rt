//! A queue of a live layer.
ghost use Rattle.std.specs.Prelude.{◌≡◌, ◌<◌, ◌≤◌, None, IfOk, IfErr, OnErr, OnOk, OnSome, IfNone, length, take, drop};
ghost use Rattle.std.specs.Option.{option_map, option_copied};
ghost use Rattle.std.specs.List.{slice_get};
ghost use Rattle.vq_layer.specs.Layer.{no_queue, AreBare};
ghost use Rattle.vq_layer.specs.Calls.{MayLackOf};
ghost use Rattle.vq_layer.specs.Takes.{taken_all, first_take_fault, AreApart, AreKnown};
ghost use Rattle.vq_layer.specs.Installs.{cancelled_all};
ghost use Rattle.vq_layer.specs.Waits.{returned_all};
ghost use Rattle.vq_layer.specs.Queues.{blocked, next_batch, after_release, timelines_released};
ghost use Rattle.vq_layer.specs.Queues.{oldest, after_finish, with_batch, batch_made};
ghost use Rattle.vq_layer.specs.Queues.{newest, newest_held_back, after_take_back, timelines_finished, some_names, left_by_batches};
ghost use Rattle.vq_layer.specs.Queues.{batches_bring, missing_of, first_held_back};

use crate::batch::LiveBatch;
use crate::stuck::{first_missing, signals_bring};
use crate::{Blocked, SubmitFault, Wait, Wanted};
use std::alloc::Global;
use std::collections::VecDeque;
use std::marker::Model;
use vq_live::LiveTimeline;

/// The batches of a queue that aren't finished, in the order of their submission: the released ones, then those held
/// back.
#[derive(Drop)]
pub struct LiveQueue {
    batches: VecDeque<LiveBatch>,
    released: usize,
}

impl Model for LiveQueue {
    ghost use Rattle.vq_layer.specs.Layer.{Queue};

    ghost Value = { Queue };

    ghost use Rattle.vq_layer.specs.QueueFields.{queue_of, IsQueue};

    ghost view = { queue_of };

    ghost invariant = { IsQueue };
}

impl LiveQueue {
    /// How many batches there are that aren't finished.
    pub fn batch_count(&self) -> usize
        ensures { result ≡ length self.now.batches }
    {
        self.batches.len()
    }

    /// How many of them are released: the first ones.
    pub fn released_count(&self) -> usize
        ensures count { result ≡ self.now.released }
        ensures within { result ≤ length self.now.batches }
    {
        self.released
    }

    /// The batch in this place, counted from the oldest one.
    pub fn batch(&self, place: usize) -> Option<&LiveBatch>
        ensures { option_copied result ≡ slice_get self.now.batches place }
    {
        self.batches.get(place)
    }

    pub(crate) fn new(alloc: Global) -> LiveQueue
        ensures { result ≡ no_queue }
    {
        LiveQueue {
            batches: VecDeque::new(alloc),
            released: 0,
        }
    }

    // What the first held-back batch is blocked by.
    pub(crate) fn blocked(&self, timelines: &[LiveTimeline]) -> Option<Blocked>
        ensures { result ≡ blocked timelines.now self.now }
    {
        match self.batches.get(self.released) {
            None => Some(Blocked::Empty),
            Some(batch) => batch.blocked(timelines),
        }
    }

    // The batch that was submitted last, if it is held back.
    pub(crate) fn newest_held_back(&self) -> Option<&LiveBatch>
        ensures { option_copied result ≡ newest_held_back self.now }
    {
        if self.released >= self.batches.len() {
            return None;
        }
        Some(&self.batches[self.batches.len() - 1])
    }

    // Whether a batch names a timeline.
    pub(crate) fn some_names(&self, timeline: u32) -> bool
        ensures { result ≡ some_names timeline self.now.batches }
    {
        for i in 0..self.batches.len() {
            if self.batches[i].names(timeline) {
                return true;
            }
        }
        false
    }

    // Whether a held-back batch signals a value or a greater one.
    pub(crate) fn brings(&self, wanted: Wanted) -> bool
        ensures { result ≡ batches_bring wanted (drop self.now.released self.now.batches) }
    {
        for i in self.released..self.batches.len() {
            if signals_bring(wanted, self.batches[i].signals()) {
                return true;
            }
        }
        false
    }

    // What the first held-back batch waits for and nothing signals.
    pub(crate) fn missing(&self, timelines: &[LiveTimeline], queues: &[LiveQueue]) -> Option<Wanted>
        ensures { result ≡ missing_of timelines.now queues.now (first_held_back self.now) }
    {
        match self.batches.get(self.released) {
            None => None,
            Some(batch) => first_missing(timelines, queues, batch.waits()),
        }
    }

    // What is left of so many references to a point without those that released batches hold.
    pub(crate) fn left(&self, timeline: u32, point: u32, refs: u32) -> u32
        ensures { result ≡ left_by_batches timeline point refs (take self.now.released self.now.batches) }
    {
        let mut left = refs;
        for i in 0..self.released {
            left = self.batches[i].left(timeline, point, left);
        }
        left
    }
}

impl LiveQueue {
    // Puts a batch behind the others, with a point for each of its signals; or changes nothing.
    pub(crate) fn submit(
        &mut self,
        alloc: Global,
        timelines: &mut [LiveTimeline],
        token: u64,
        waits: Vec<Wait>,
        signals: &[Wanted],
    ) -> Result<(), SubmitFault>
        requires bare { AreBare timelines.old }
        requires apart { AreApart signals.now }
        requires known { AreKnown timelines.old signals.now }
        requires fine { first_take_fault timelines.old signals.now ≡ None }
        ensures after { OnOk result (self.new ≡ with_batch self.old (batch_made timelines.old token waits.items signals.now)) }
        ensures taken { OnOk result (timelines.new ≡ taken_all timelines.old signals.now) }
        ensures fault { IfErr result (MayLackOf timelines.old signals.now) }
        ensures unchanged { OnErr result (self.new ≡ self.old) }
        ensures untaken { OnErr result (timelines.new ≡ timelines.old) }
    {
        if self.batches.reserve(1).is_err() {
            return Err(SubmitFault::NoMemory);
        }
        let batch = LiveBatch::make(alloc, timelines, token, waits, signals)?;
        self.batches.push_back_reserved(batch);
        Ok(())
    }

    // Releases the first held-back batch.
    pub(crate) fn release(&mut self, timelines: &mut [LiveTimeline])
        requires some { self.old.released < length self.old.batches }
        ensures after { self.new ≡ after_release timelines.old self.old }
        ensures released { timelines.new ≡ timelines_released timelines.old (next_batch self.old) }
    {
        self.batches[self.released].release(timelines);
        self.released += 1;
    }

    // The oldest released batch is done on the device: gives its references back. Its token, and how many waits it has.
    pub(crate) fn finish(&mut self, timelines: &mut [LiveTimeline]) -> Option<(u64, usize)>
        ensures told { result ≡ option_map (λ b. (b.token, length b.waits)) (oldest self.old) }
        ensures after { OnSome result (self.new ≡ after_finish self.old) }
        ensures unchanged { IfNone result (self.new ≡ self.old) }
        ensures returned { timelines.new ≡ timelines_finished timelines.old (oldest self.old) }
    {
        if self.released == 0 {
            return None;
        }
        match self.batches.pop_front() {
            None => None,
            Some(batch) => {
                self.released -= 1;
                batch.finish(timelines);
                Some((batch.token(), batch.waits().len()))
            }
        }
    }

    // Takes the batch back that was submitted last and is held back.
    pub(crate) fn take_back(&mut self, timelines: &mut [LiveTimeline]) -> LiveBatch
        requires some { self.old.released < length self.old.batches }
        ensures batch { result ≡ newest self.old }
        ensures after { self.new ≡ after_take_back self.old }
        ensures cancelled { timelines.new ≡ cancelled_all timelines.old (newest self.old).signals }
    {
        match self.batches.pop_back() {
            None => unreachable!(),
            Some(batch) => {
                batch.cancel(timelines);
                batch
            }
        }
    }
}
