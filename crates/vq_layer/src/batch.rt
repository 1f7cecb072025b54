//! A batch of a live layer.
ghost use Rattle.std.specs.Prelude.{◌≡◌, None, IfOk, IfErr, OnErr, OnOk};
ghost use Rattle.vq_layer.specs.Layer.{AreBare};
ghost use Rattle.vq_layer.specs.Calls.{MayLackOf, used_fault};
ghost use Rattle.vq_layer.specs.Names.{first_used_signal, first_used_wait};
ghost use Rattle.vq_layer.specs.Takes.{taken_all, first_take_fault, AreApart, AreKnown};
ghost use Rattle.vq_layer.specs.Installs.{first_behind, cancelled_all};
ghost use Rattle.vq_layer.specs.Waits.{returned_all, left_by_waits};
ghost use Rattle.vq_layer.specs.Queues.{batch_blocked, batch_made, batch_released, timelines_released, names};

use crate::signals::{cancel_all, first_behind, install_all, reserve_all, take_all};
use crate::undoing::{first_used_signal, first_used_wait, signals_name, waits_name};
use crate::waits::{first_not_yet, hold_all, left_by_waits, return_all};
use crate::{Blocked, Kind, Signal, SubmitFault, TakeBackFault, Wait, Wanted};
use std::alloc::Global;
use std::marker::Model;
use vq_live::LiveTimeline;

/// A batch that isn't finished: the caller's token, what it waits for, and what it signals.
#[derive(Drop)]
pub struct LiveBatch {
    token: u64,
    waits: Vec<Wait>,
    signals: Vec<Signal>,
}

impl Model for LiveBatch {
    ghost use Rattle.vq_layer.specs.Layer.{Batch};

    ghost Value = { Batch };

    ghost use Rattle.vq_layer.specs.BatchFields.{batch_of};

    ghost view = { batch_of };
}

impl LiveBatch {
    /// The caller's token.
    pub fn token(&self) -> u64
        ensures { result ≡ self.now.token }
    {
        self.token
    }

    /// What it waits for. Of a released batch, the points that it holds.
    pub fn waits(&self) -> &[Wait]
        ensures { result.now ≡ self.now.waits }
    {
        self.waits.as_slice()
    }

    /// What it signals: the greatest value of each timeline.
    pub fn signals(&self) -> &[Signal]
        ensures { result.now ≡ self.now.signals }
    {
        self.signals.as_slice()
    }

    // Whether it names a timeline.
    pub(crate) fn names(&self, timeline: u32) -> bool
        ensures { result ≡ names timeline self.now }
    {
        waits_name(timeline, self.waits.as_slice())
            || signals_name(timeline, self.signals.as_slice())
    }

    // What is left of so many references to a point without those that it holds.
    pub(crate) fn left(&self, timeline: u32, point: u32, refs: u32) -> u32
        ensures { result ≡ left_by_waits timeline point refs self.now.waits }
    {
        left_by_waits(timeline, point, refs, self.waits.as_slice())
    }
}

impl LiveBatch {
    // What it is blocked by.
    pub(crate) fn blocked(&self, timelines: &[LiveTimeline]) -> Option<Blocked>
        ensures { result ≡ batch_blocked timelines.now self.now }
    {
        if let Some(wanted) = first_not_yet(timelines, self.waits.as_slice()) {
            return Some(Blocked::Waits { wanted });
        }
        match first_behind(timelines, self.signals.as_slice()) {
            Some(signal) => Some(Blocked::Behind { signal }),
            None => None,
        }
    }

    // Takes points for its signals, no two of which are of one timeline; or changes nothing.
    pub(crate) fn make(
        alloc: Global,
        timelines: &mut [LiveTimeline],
        token: u64,
        waits: Vec<Wait>,
        signals: &[Wanted],
    ) -> Result<LiveBatch, SubmitFault>
        requires bare { AreBare timelines.old }
        requires apart { AreApart signals.now }
        requires known { AreKnown timelines.old signals.now }
        requires fine { first_take_fault timelines.old signals.now ≡ None }
        ensures made { IfOk result (λ batch. batch ≡ batch_made timelines.old token waits.items signals.now) }
        ensures after { OnOk result (timelines.new ≡ taken_all timelines.old signals.now) }
        ensures fault { IfErr result (MayLackOf timelines.old signals.now) }
        ensures unchanged { OnErr result (timelines.new ≡ timelines.old) }
    {
        let Ok(mut taken) = Vec::with_capacity(alloc, signals.len()) else {
            return Err(SubmitFault::NoMemory);
        };
        reserve_all(timelines, signals)?;
        take_all(timelines, signals, &mut taken);
        Ok(LiveBatch {
            token,
            waits,
            signals: taken,
        })
    }

    // Holds the points that it waits for and installs its operations.
    pub(crate) fn release(&mut self, timelines: &mut [LiveTimeline])
        ensures batch { self.new ≡ batch_released timelines.old self.old }
        ensures after { timelines.new ≡ timelines_released timelines.old self.old }
    {
        hold_all(timelines, &mut self.waits);
        install_all(timelines, self.signals.as_slice());
    }

    // It is done on the device: gives its references back.
    pub(crate) fn finish(&self, timelines: &mut [LiveTimeline])
        ensures { timelines.new ≡ returned_all timelines.old self.now.waits }
    {
        return_all(timelines, self.waits.as_slice());
    }

    // What of it is used already, so that it can't be taken back.
    pub(crate) fn used(&self, kinds: &[Kind]) -> Option<TakeBackFault>
        ensures { result ≡ used_fault (first_used_signal kinds.now self.now.signals)
            (first_used_wait kinds.now self.now.signals self.now.waits) }
    {
        if let Some(timeline) = first_used_signal(kinds, self.signals.as_slice()) {
            return Some(TakeBackFault::Used { timeline });
        }
        match first_used_wait(kinds, self.signals.as_slice(), self.waits.as_slice()) {
            None => None,
            Some(timeline) => Some(TakeBackFault::Used { timeline }),
        }
    }

    // Takes its operations back.
    pub(crate) fn cancel(&self, timelines: &mut [LiveTimeline])
        ensures { timelines.new ≡ cancelled_all timelines.old self.now.signals }
    {
        cancel_all(timelines, self.signals.as_slice());
    }
}
