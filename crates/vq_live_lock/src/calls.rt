//! The calls of a guard that change its timeline. The guard lends no timeline, so that no other can be put
//! in the place of its own.
//!
//! Source: this project's own.
ghost use Rattle.std.specs.Prelude.{◌≡◌};
ghost use Rattle.vq_live.specs.Calls.{first_pending, after_complete};
ghost use Rattle.vq_live_lock.specs.Locked.{IsTaken, timeline_of};
ghost use Rattle.vq_live_lock.specs.Answers.{HasTaken, HasReserved, HasInstalled, HasCancelled};
ghost use Rattle.vq_live_lock.specs.Answers.{HasReferred, HasReturned, HasSignaled};

use crate::locked::{LiveGuard, LockedLive};
use vq_live::{
    CancelFault, Given, Held, InstallFault, ReferFault, ReserveFault, SignalFault, TakeFault,
};

impl LiveGuard {
    /// Gives a point to an operation with this value. All memory is taken here, or ahead by `reserve`.
    pub fn take(&mut self, of: &LockedLive, value: u64) -> Result<Given, TakeFault>
        requires { IsTaken of.now self.old }
        ensures answer { HasTaken (timeline_of self.old) (timeline_of self.new) value result }
        ensures taken { IsTaken of.now self.new }
    {
        self.guard.content(&of.lock).timeline.take(value)
    }

    /// Takes the memory of so many takes ahead, and sees that there are numbers for so many points.
    pub fn reserve(&mut self, of: &LockedLive, count: usize) -> Result<(), ReserveFault>
        requires { IsTaken of.now self.old }
        ensures answer { HasReserved (timeline_of self.old) (timeline_of self.new) count result }
        ensures taken { IsTaken of.now self.new }
    {
        self.guard.content(&of.lock).timeline.reserve(count)
    }

    /// Installs the operation that was taken for the least value: its submission is made.
    pub fn install(&mut self, of: &LockedLive, given: Given) -> Result<(), InstallFault>
        requires { IsTaken of.now self.old }
        ensures answer { HasInstalled (timeline_of self.old) (timeline_of self.new) given result }
        ensures taken { IsTaken of.now self.new }
    {
        self.guard.content(&of.lock).timeline.install(given)
    }

    /// Takes back an operation that is taken and not installed.
    pub fn cancel(&mut self, of: &LockedLive, given: Given) -> Result<(), CancelFault>
        requires { IsTaken of.now self.old }
        ensures answer { HasCancelled (timeline_of self.old) (timeline_of self.new) given result }
        ensures taken { IsTaken of.now self.new }
    {
        self.guard.content(&of.lock).timeline.cancel(given)
    }

    /// Completes the first pending operation: its value is reached, and its point is free unless it is
    /// held.
    pub fn complete(&mut self, of: &LockedLive) -> Option<Given>
        requires { IsTaken of.now self.old }
        ensures answer { result ≡ first_pending (timeline_of self.old) }
        ensures after { timeline_of self.new ≡ after_complete (timeline_of self.old) }
        ensures taken { IsTaken of.now self.new }
    {
        self.guard.content(&of.lock).timeline.complete()
    }

    /// Holds a point that carries an operation, so that it isn't used again before the reference is
    /// given back.
    pub fn refer(&mut self, of: &LockedLive, point: u32) -> Result<Held, ReferFault>
        requires { IsTaken of.now self.old }
        ensures answer { HasReferred (timeline_of self.old) (timeline_of self.new) point result }
        ensures taken { IsTaken of.now self.new }
    {
        self.guard.content(&of.lock).timeline.refer(point)
    }

    /// Gives a reference back. The error hands it out again: nobody holds that point of this timeline.
    pub fn unref(&mut self, of: &LockedLive, held: Held) -> Result<(), Held>
        requires { IsTaken of.now self.old }
        ensures answer { HasReturned (timeline_of self.old) (timeline_of self.new) held result }
        ensures taken { IsTaken of.now self.new }
    {
        self.guard.content(&of.lock).timeline.unref(held)
    }

    /// The host sets a value, above the one reached and below each that is taken or pending.
    pub fn signal(&mut self, of: &LockedLive, value: u64) -> Result<(), SignalFault>
        requires { IsTaken of.now self.old }
        ensures answer { HasSignaled (timeline_of self.old) (timeline_of self.new) value result }
        ensures taken { IsTaken of.now self.new }
    {
        self.guard.content(&of.lock).timeline.signal(value)
    }
}
