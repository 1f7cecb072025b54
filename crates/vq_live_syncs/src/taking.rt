//! The opening of a synced timeline, and its takes.
//!
//! Source: this project's own.
ghost use Rattle.std.specs.Prelude.{◌≡◌, [], None, IfOk, IfErr, OnOk, OnErr};
ghost use Rattle.vq_live.specs.Live.{opened};
ghost use Rattle.vq_live.specs.Calls.{take_fault};
ghost use Rattle.vq_live_syncs.specs.Calls.{taken_by, after_taking, IsRefused};

use crate::syncs::BinarySync;
use crate::timeline::{Reach, SyncedTimeline, Taken};
use std::alloc::Global;
use std::marker::PhantomData;
use vq_live::{LiveTimeline, TakeFault};

impl<S: BinarySync> SyncedTimeline<S> {
    /// A timeline that reached this value, with no points.
    pub fn new(alloc: Global, initial: u64) -> SyncedTimeline<S>
        ensures live { result.live ≡ opened initial }
        ensures numbers { result.numbers ≡ [] }
        ensures next { result.next ≡ 0 }
        ensures reach { result.reach ≡ Reach.Opened }
    {
        SyncedTimeline {
            timeline: LiveTimeline::new(alloc, initial),
            numbers: Vec::new(alloc),
            next: 0,
            reach: Reach::Opened,
            of: PhantomData,
        }
    }

    /// Gives a point to an operation with this value, and a number to the take. The point's sync object
    /// is reset then, and keeps the number.
    pub fn take(&mut self, value: u64) -> Result<Taken, TakeFault>
        ensures ok { OnOk result (take_fault self.old.live value ≡ None) }
        ensures taken { IfOk result (λ x. x ≡ taken_by self.old value) }
        ensures after { OnOk result (self.new ≡ after_taking self.old value) }
        ensures err { IfErr result (λ fault. IsRefused self.old value fault) }
        ensures unchanged { OnErr result (self.new ≡ self.old) }
    {
        let number = self.next;
        if number == u64::MAX {
            return Err(TakeFault::Full);
        }
        if self.numbers.reserve(1).is_err() {
            return Err(TakeFault::NoMemory);
        }
        let given = self.timeline.take(value)?;
        self.next = number + 1;
        let point = given.point as usize;
        if point < self.numbers.len() {
            self.numbers[point] = number;
        } else {
            self.numbers.push_reserved(number);
        }
        Ok(Taken { given, number })
    }
}
