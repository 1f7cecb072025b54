//! The calls of a guard that ask its timeline and change nothing.
//!
//! Source: this project's own.
ghost use Rattle.std.specs.Prelude.{◌≡◌};
ghost use Rattle.std.specs.List.{slice_get};
ghost use Rattle.vq_live.specs.Live.{slot_at};
ghost use Rattle.vq_live.specs.Calls.{found, first_pending};
ghost use Rattle.vq_live_lock.specs.Locked.{IsTaken, timeline_of};

use crate::locked::{LiveGuard, LockedLive};
use vq_live::{Found, Given};

impl LiveGuard {
    /// Where a value stands: reached, or at the first pending operation whose value is at least this
    /// one, or at none yet.
    pub fn find(&mut self, of: &LockedLive, value: u64) -> Found
        requires { IsTaken of.now self.old }
        ensures answer { result ≡ found (timeline_of self.old) value }
        ensures same { timeline_of self.new ≡ timeline_of self.old }
        ensures taken { IsTaken of.now self.new }
    {
        self.guard.content(&of.lock).timeline.find(value)
    }

    /// The first pending operation, if any is: its point's sync is asked first.
    pub fn first(&mut self, of: &LockedLive) -> Option<Given>
        requires { IsTaken of.now self.old }
        ensures answer { result ≡ first_pending (timeline_of self.old) }
        ensures same { timeline_of self.new ≡ timeline_of self.old }
        ensures taken { IsTaken of.now self.new }
    {
        self.guard.content(&of.lock).timeline.first()
    }

    /// The taken operation of least value, if any is taken: the next to be installed.
    pub fn least_taken(&mut self, of: &LockedLive) -> Option<Given>
        requires { IsTaken of.now self.old }
        ensures answer { result ≡ slice_get (timeline_of self.old).ops (timeline_of self.old).installed }
        ensures same { timeline_of self.new ≡ timeline_of self.old }
        ensures taken { IsTaken of.now self.new }
    {
        self.guard.content(&of.lock).timeline.least_taken()
    }

    /// The value that the timeline reached.
    pub fn value(&mut self, of: &LockedLive) -> u64
        requires { IsTaken of.now self.old }
        ensures answer { result ≡ (timeline_of self.old).payload }
        ensures same { timeline_of self.new ≡ timeline_of self.old }
        ensures taken { IsTaken of.now self.new }
    {
        self.guard.content(&of.lock).timeline.value()
    }

    /// How many references to a point are held: none of a number that is no point's.
    pub fn refs(&mut self, of: &LockedLive, point: u32) -> u32
        requires { IsTaken of.now self.old }
        ensures answer { result ≡ (slot_at (timeline_of self.old).slots point).refs }
        ensures same { timeline_of self.new ≡ timeline_of self.old }
        ensures taken { IsTaken of.now self.new }
    {
        self.guard.content(&of.lock).timeline.refs(point)
    }
}
