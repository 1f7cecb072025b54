//! What a queue waits for that nothing signals.
ghost use Rattle.std.specs.Prelude.{◌≡◌, drop};
ghost use Rattle.vq_layer.specs.Queues.{brings, signals_bring, batches_bring, queues_bring, is_missing, first_missing, missing_of, first_held_back};
ghost use Rattle.vq_layer.specs.Calls.{stuck_of};

use crate::layer::LiveLayer;
use crate::queue::LiveQueue;
use crate::waits::found_in;
use crate::{Signal, Wait, Wanted};
use vq_live::{Found, LiveTimeline};

// Whether a signal is of a value or a greater one.
fn brings(wanted: Wanted, signal: Signal) -> bool
    ensures { result ≡ brings wanted signal }
{
    signal.timeline == wanted.timeline && wanted.value <= signal.given.value
}

// Whether one of these is.
pub(crate) fn signals_bring(wanted: Wanted, signals: &[Signal]) -> bool
    ensures { result ≡ signals_bring wanted signals.now }
{
    for s in signals {
        if brings(wanted, *s) {
            return true;
        }
    }
    false
}

// Whether a held-back batch signals a value or a greater one.
fn queues_bring(wanted: Wanted, queues: &[LiveQueue]) -> bool
    ensures { result ≡ queues_bring wanted queues.now }
{
    for i in 0..queues.len() {
        if queues[i].brings(wanted) {
            return true;
        }
    }
    false
}

// Whether a value is neither past nor pending, and no held-back batch signals it.
fn is_missing(timelines: &[LiveTimeline], queues: &[LiveQueue], wanted: Wanted) -> bool
    ensures { result ≡ is_missing timelines.now queues.now wanted }
{
    found_in(timelines, wanted) == Found::NotYet && !queues_bring(wanted, queues)
}

// The first of these waits for such a value.
pub(crate) fn first_missing(
    timelines: &[LiveTimeline],
    queues: &[LiveQueue],
    waits: &[Wait],
) -> Option<Wanted>
    ensures { result ≡ first_missing timelines.now queues.now waits.now }
{
    for w in waits {
        if is_missing(timelines, queues, w.wanted) {
            return Some(w.wanted);
        }
    }
    None
}

impl LiveLayer {
    /// The first wait of a queue's first held-back batch for a value that is neither past nor pending and that no held-back
    /// batch signals: nothing that is submitted releases it. It looks through all held-back batches.
    #[tactic(auto, using(crate::proofs::Lookups::read_queue))]
    pub fn stuck(&self, queue: u32) -> Option<Wanted>
        ensures { result ≡ stuck_of self.now queue }
    {
        if queue as usize >= self.queues.len() {
            return None;
        }
        self.queues[queue as usize].missing(&self.timelines, &self.queues)
    }
}
