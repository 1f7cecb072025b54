//! Submitting a batch, and taking it back.
ghost use Rattle.std.specs.Prelude.{◌≡◌, ◌⊎◌, None, Some, IfErr, OnErr, OnOk, IfOk};
ghost use Rattle.vq_layer.specs.Layer.{queue_at};
ghost use Rattle.vq_layer.specs.Queues.{newest};
ghost use Rattle.vq_layer.specs.Calls.{submit_fault, MayLackIn, after_submit, take_back_fault, after_take_back_of};

use crate::layer::LiveLayer;
use crate::merging::signals_named;
use crate::naming::{
    count_signals, count_waits, first_signal_fault, first_wait_fault, waits_named,
};
use crate::signals::first_take_fault;
use crate::undoing::{uncount_signals, uncount_waits};
use crate::{SubmitFault, TakeBackFault, Wanted};
use std::alloc::Global;

/// The most waits that the batches may have together that aren't finished.
pub const MOST_WAITS: usize = 2147483647;

impl LiveLayer {
    /// Puts a batch behind the others of its queue, held back, with a point for each timeline that it signals. Of signals
    /// of one timeline the greatest stands for all, and each smaller value is reached with it. All memory that the batch
    /// will want is taken here.
    #[tactic(auto, using(crate::proofs::Lookups::read_live, crate::proofs::Lookups::read_queue, std::proofs::lemmas::List::set_past))]
    pub fn submit(
        &mut self,
        alloc: Global,
        queue: u32,
        token: u64,
        waits: &[Wanted],
        signals: &[Wanted],
    ) -> Result<(), SubmitFault>
        ensures ok { OnOk result (submit_fault self.old queue waits.now signals.now ≡ None) }
        ensures err { IfErr result (λ fault. (submit_fault self.old queue waits.now signals.now ≡ Some fault)
            ⊎ MayLackIn self.old signals.now fault) }
        ensures after { OnOk result (self.new ≡ after_submit self.old queue token waits.now signals.now) }
        ensures unchanged { OnErr result (self.new ≡ self.old) }
    {
        if queue as usize >= self.queues.len() {
            return Err(SubmitFault::NoQueue);
        }
        if waits.len() > MOST_WAITS - self.waits {
            return Err(SubmitFault::Full);
        }
        if let Some(fault) = first_wait_fault(&self.kinds, waits) {
            return Err(fault);
        }
        if let Some(fault) = first_signal_fault(&self.kinds, waits, signals) {
            return Err(fault);
        }
        let Ok(merged) = signals_named(alloc, &self.kinds, signals) else {
            return Err(SubmitFault::NoMemory);
        };
        if let Some(fault) = first_take_fault(&self.timelines, &merged) {
            return Err(fault);
        }
        let Ok(named) = waits_named(alloc, &self.kinds, waits) else {
            return Err(SubmitFault::NoMemory);
        };
        self.queues[queue as usize].submit(alloc, &mut self.timelines, token, named, &merged)?;
        count_waits(&mut self.kinds, waits);
        count_signals(&mut self.kinds, &merged);
        self.waits += waits.len();
        Ok(())
    }

    // Why the batch that was submitted last to a queue can't be taken back.
    #[tactic(auto, using(crate::proofs::Lookups::read_live, crate::proofs::Lookups::read_queue, std::proofs::lemmas::List::set_past))]
    fn take_back_fault(&self, queue: u32) -> Option<TakeBackFault>
        ensures { result ≡ take_back_fault self.now queue }
    {
        if queue as usize >= self.queues.len() {
            return Some(TakeBackFault::NoQueue);
        }
        match self.queues[queue as usize].newest_held_back() {
            None => Some(TakeBackFault::Empty),
            Some(batch) => batch.used(&self.kinds),
        }
    }

    /// Takes back the batch that was submitted last to a queue, if it is held back: its operations are cancelled, and its
    /// waits of binary semaphores give their signals back. Its token is answered. The points that were made for it stay,
    /// free.
    #[tactic(auto, using(crate::proofs::Lookups::read_live, crate::proofs::Lookups::read_queue, std::proofs::lemmas::List::set_past))]
    pub fn take_back(&mut self, queue: u32) -> Result<u64, TakeBackFault>
        ensures ok { OnOk result (take_back_fault self.old queue ≡ None) }
        ensures err { IfErr result (λ fault. take_back_fault self.old queue ≡ Some fault) }
        ensures token { IfOk result (λ token. token ≡ (newest (queue_at self.old.queues queue)).token) }
        ensures after { OnOk result (self.new ≡ after_take_back_of self.old queue (newest (queue_at self.old.queues queue))) }
        ensures unchanged { OnErr result (self.new ≡ self.old) }
    {
        if let Some(fault) = self.take_back_fault(queue) {
            return Err(fault);
        }
        let batch = self.queues[queue as usize].take_back(&mut self.timelines);
        uncount_signals(&mut self.kinds, batch.signals());
        uncount_waits(&mut self.kinds, batch.waits());
        self.waits = self.waits.saturating_sub(batch.waits().len());
        Ok(batch.token())
    }
}
