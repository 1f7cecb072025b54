//! What the host asks and does: of one timeline, binary semaphore or fence.
ghost use Rattle.std.specs.Prelude.{◌≡◌, ◌↔◌, ◌<◌, None, Some, IsErr, IfErr, OnErr, OnOk, length};
ghost use Rattle.vq_layer.specs.Layer.{live_at, kind_at};
ghost use Rattle.vq_layer.specs.Waits.{found_in};
ghost use Rattle.vq_layer.specs.Calls.{completed_of, after_complete_of, set_fault, after_set, signal_in_kind, reset_fault, after_reset};
ghost use Rattle.vq_layer.specs.Calls.{refer_answer_of, after_refer_of, host_refs, after_unref_of, value_in, pending_value_in};

use crate::layer::LiveLayer;
use crate::naming::{kind_at, with_wait};
use crate::waits::found_in;
use crate::{Kind, ResetFault, SetFault, Wanted};
use vq_live::{Found, Given, Held, ReferFault, SignalFault};

/// The host's references to a point are refused from so many references on.
pub const MOST_REFS: u32 = 2147483648;

impl LiveLayer {
    /// Where a value of a timeline stands: reached, or at the first pending operation at or above it, or at none yet.
    pub fn find(&self, timeline: u32, value: u64) -> Found
        ensures { result ≡ found_in self.now.timelines (record { timeline = timeline; value = value }) }
    {
        found_in(&self.timelines, Wanted { timeline, value })
    }

    /// The first pending operation of a timeline, if any is: its point's sync is asked first.
    #[tactic(auto, using(crate::proofs::Lookups::read_live, std::proofs::lemmas::List::set_past))]
    pub fn first(&self, timeline: u32) -> Option<Given>
        ensures { result ≡ completed_of self.now timeline }
    {
        if timeline as usize >= self.timelines.len() {
            return None;
        }
        self.timelines[timeline as usize].first()
    }

    /// Completes the first pending operation of a timeline: its point's sync is signaled.
    #[tactic(auto, using(crate::proofs::Lookups::read_live, std::proofs::lemmas::List::set_past))]
    pub fn complete(&mut self, timeline: u32) -> Option<Given>
        ensures answer { result ≡ completed_of self.old timeline }
        ensures after { self.new ≡ after_complete_of self.old timeline }
    {
        if timeline as usize >= self.timelines.len() {
            return None;
        }
        self.timelines[timeline as usize].complete()
    }

    /// How many references to a point are the host's: all but those of released batches. It looks through these.
    #[tactic(auto, using(crate::proofs::Lookups::read_live, std::proofs::lemmas::List::set_past))]
    pub fn host_refs(&self, timeline: u32, point: u32) -> u32
        ensures { result ≡ host_refs self.now timeline point }
    {
        let mut left = 0;
        if (timeline as usize) < self.timelines.len() {
            left = self.timelines[timeline as usize].refs(point);
        }
        for i in 0..self.queues.len() {
            left = self.queues[i].left(timeline, point, left);
        }
        left
    }

    /// Holds a point that carries an operation, for the host. It is refused from 2^31 references to the point on, so that
    /// a release never is.
    #[tactic(auto, using(crate::proofs::Lookups::read_live, std::proofs::lemmas::List::set_past))]
    pub fn refer(&mut self, timeline: u32, point: u32) -> Result<Held, ReferFault>
        ensures answer { result ≡ refer_answer_of self.old timeline point }
        ensures after { OnOk result (self.new ≡ after_refer_of self.old timeline point) }
        ensures unchanged { OnErr result (self.new ≡ self.old) }
    {
        if timeline as usize >= self.timelines.len() {
            return Err(ReferFault::NotOut);
        }
        if self.timelines[timeline as usize].refs(point) >= MOST_REFS {
            return Err(ReferFault::Full);
        }
        self.timelines[timeline as usize].refer(point)
    }

    /// Gives a reference of the host back. The error hands it out again, where the host holds no such point.
    #[tactic(auto, using(crate::proofs::Lookups::read_live, std::proofs::lemmas::List::set_past))]
    pub fn unref(&mut self, timeline: u32, held: Held) -> Result<(), Held>
        ensures refused { IsErr result ↔ (host_refs self.old timeline held.point ≡ 0) }
        ensures back { IfErr result (λ back. back ≡ held) }
        ensures after { OnOk result (self.new ≡ after_unref_of self.old timeline held.point) }
        ensures unchanged { OnErr result (self.new ≡ self.old) }
    {
        if self.host_refs(timeline, held.point()) == 0 {
            return Err(held);
        }
        self.timelines[timeline as usize].unref(held)
    }

    /// The value that a timeline reached, or how many signals of a binary semaphore; `None` of a number that stands for
    /// nothing.
    #[tactic(auto, using(crate::proofs::Lookups::read_live, std::proofs::lemmas::List::set_past))]
    pub fn value(&self, timeline: u32) -> Option<u64>
        ensures { result ≡ value_in (kind_at self.now.kinds timeline) (live_at self.now.timelines timeline) }
    {
        match kind_at(&self.kinds, timeline) {
            Kind::Closed => None,
            Kind::Timeline => Some(self.timelines[timeline as usize].value()),
            Kind::Binary {
                signals: _,
                taken: _,
            } => Some(self.timelines[timeline as usize].value()),
        }
    }

    /// The value of the last pending operation of a timeline or a binary semaphore, and where none is pending, the one that
    /// it reached; `None` of a number that stands for nothing. A signal of a batch has to be above it.
    #[tactic(auto, using(crate::proofs::Lookups::read_live, std::proofs::lemmas::List::set_past))]
    pub fn pending_value(&self, timeline: u32) -> Option<u64>
        ensures { result ≡ pending_value_in (kind_at self.now.kinds timeline) (live_at self.now.timelines timeline) }
    {
        match kind_at(&self.kinds, timeline) {
            Kind::Closed => None,
            Kind::Timeline => Some(self.timelines[timeline as usize].pending_value()),
            Kind::Binary {
                signals: _,
                taken: _,
            } => Some(self.timelines[timeline as usize].pending_value()),
        }
    }

    /// The host sets the value of a timeline, above the one reached and below each that is taken or pending.
    #[tactic(auto, using(crate::proofs::Lookups::read_live, std::proofs::lemmas::List::set_past))]
    pub fn signal(&mut self, timeline: u32, value: u64) -> Result<(), SetFault>
        ensures ok { OnOk result (set_fault self.old timeline value ≡ None) }
        ensures err { IfErr result (λ fault. set_fault self.old timeline value ≡ Some fault) }
        ensures after { OnOk result (self.new ≡ after_set self.old timeline value) }
        ensures unchanged { OnErr result (self.new ≡ self.old) }
    {
        match kind_at(&self.kinds, timeline) {
            Kind::Closed => Err(SetFault::NoTimeline),
            Kind::Binary {
                signals: _,
                taken: _,
            } => Err(SetFault::NoTimeline),
            Kind::Timeline => match self.timelines[timeline as usize].signal(value) {
                Ok(()) => Ok(()),
                Err(SignalFault::NotAbove { payload }) => Err(SetFault::NotAbove { payload }),
                Err(SignalFault::Outstanding { first }) => Err(SetFault::Outstanding { first }),
            },
        }
    }

    /// The number of the signal of a binary semaphore or a fence that is submitted and not taken, if one is: `find` says
    /// whether it is reached.
    pub fn untaken(&self, timeline: u32) -> Option<u64>
        ensures { result ≡ signal_in_kind (kind_at self.now.kinds timeline) }
    {
        match kind_at(&self.kinds, timeline) {
            Kind::Closed => None,
            Kind::Timeline => None,
            Kind::Binary { signals, taken } => {
                if signals == taken {
                    return None;
                }
                Some(signals)
            }
        }
    }

    /// Resets a fence, or a binary semaphore: the host takes its signal, which is reached. One that is unsignaled stays so.
    #[tactic(auto, using(crate::proofs::Lookups::read_live, crate::proofs::Lookups::read_kind, std::proofs::lemmas::List::set_past))]
    pub fn reset(&mut self, timeline: u32) -> Result<(), ResetFault>
        ensures ok { OnOk result (reset_fault self.old timeline ≡ None) }
        ensures err { IfErr result (λ fault. reset_fault self.old timeline ≡ Some fault) }
        ensures after { OnOk result (self.new ≡ after_reset self.old timeline) }
        ensures unchanged { OnErr result (self.new ≡ self.old) }
    {
        if let Some(fault) = self.reset_fault(timeline) {
            return Err(fault);
        }
        if (timeline as usize) < self.kinds.len() {
            self.kinds[timeline as usize] = with_wait(self.kinds[timeline as usize]);
        }
        Ok(())
    }

    // Why a fence isn't reset.
    #[tactic(auto, using(crate::proofs::Lookups::read_live, std::proofs::lemmas::List::set_past))]
    fn reset_fault(&self, timeline: u32) -> Option<ResetFault>
        ensures { result ≡ reset_fault self.now timeline }
    {
        match kind_at(&self.kinds, timeline) {
            Kind::Closed => Some(ResetFault::NoBinary),
            Kind::Timeline => Some(ResetFault::NoBinary),
            Kind::Binary { signals, taken } => {
                if signals == taken {
                    return None;
                }
                if signals <= self.timelines[timeline as usize].value() {
                    return None;
                }
                Some(ResetFault::InUse)
            }
        }
    }
}
