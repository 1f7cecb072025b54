//! The other calls of a live timeline, and the timeline itself for what only asks.
//!
//! Source: this project's own.
ghost use Rattle.std.specs.Prelude.{◌≡◌, ◌↔◌, IsErr, IfErr, OnOk, OnErr};
ghost use Rattle.vq_live.specs.Live.{slot_at};
ghost use Rattle.vq_live.specs.Calls.{install_fault, cancel_fault, signal_fault, refer_answer};
ghost use Rattle.vq_live.specs.Runs.{Comes, installing, cancelling, signaling, referring, returning};
ghost use Rattle.vq_live_syncs.specs.Calls.{IsMade};

use crate::syncs::BinarySync;
use crate::timeline::{Reach, SyncedTimeline};
use vq_live::{CancelFault, Given, Held, InstallFault, LiveTimeline, ReferFault, SignalFault};

impl<S: BinarySync> SyncedTimeline<S> {
    /// The live timeline, with all its calls that only ask.
    pub fn timeline(&self) -> &LiveTimeline
        ensures { result.now ≡ self.now.live }
    {
        &self.timeline
    }

    /// Installs the operation that was taken for the least value: its submission is made.
    pub fn install(&mut self, given: Given) -> Result<(), InstallFault>
        ensures made { IsMade self.old.live (installing given) self.new.live
            (install_fault self.old.live given) result }
        ensures rest { self.new ≡ record self.old { live = self.new.live } }
    {
        self.timeline.install(given)
    }

    /// Takes back an operation that is taken and not installed.
    pub fn cancel(&mut self, given: Given) -> Result<(), CancelFault>
        ensures made { IsMade self.old.live (cancelling given) self.new.live
            (cancel_fault self.old.live given) result }
        ensures rest { self.new ≡ record self.old { live = self.new.live } }
    {
        self.timeline.cancel(given)
    }

    /// The host sets a value, above the one reached and below each that is taken or pending.
    pub fn signal(&mut self, value: u64) -> Result<(), SignalFault>
        ensures made { IsMade self.old.live (signaling value) self.new.live
            (signal_fault self.old.live value) result }
        ensures by_host { OnOk result (self.new ≡ record self.old { live = self.new.live; reach = Reach.Host }) }
        ensures unchanged { OnErr result (self.new ≡ self.old) }
    {
        self.timeline.signal(value)?;
        self.reach = Reach::Host;
        Ok(())
    }

    /// Holds a point that carries an operation, so that it isn't used again before the reference is
    /// given back.
    pub fn refer(&mut self, point: u32) -> Result<Held, ReferFault>
        ensures answer { result ≡ refer_answer self.old.live point }
        ensures came { OnOk result (Comes self.old.live (referring point) self.new.live) }
        ensures rest { self.new ≡ record self.old { live = self.new.live } }
        ensures unchanged { OnErr result (self.new ≡ self.old) }
    {
        self.timeline.refer(point)
    }

    /// Gives a reference back. The error hands it out again: nobody holds that point of this timeline.
    pub fn unref(&mut self, held: Held) -> Result<(), Held>
        ensures refused { IsErr result ↔ ((slot_at self.old.live.slots held.point).refs ≡ 0) }
        ensures back { IfErr result (λ back. back ≡ held) }
        ensures came { OnOk result (Comes self.old.live (returning held.point) self.new.live) }
        ensures rest { self.new ≡ record self.old { live = self.new.live } }
        ensures unchanged { OnErr result (self.new ≡ self.old) }
    {
        self.timeline.unref(held)
    }
}
