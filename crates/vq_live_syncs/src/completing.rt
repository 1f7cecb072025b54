//! The completion of a synced timeline, and what it reached.
//!
//! Source: this project's own.
ghost use Rattle.std.specs.Prelude.{◌≡◌, IfErr, IfSome, None, Some};
ghost use Rattle.vq_live.specs.Calls.{first_pending};
ghost use Rattle.vq_live_syncs.specs.Synced.{IsReached};
ghost use Rattle.vq_live_syncs.specs.Calls.{HasCompleted, IsFirst};

use crate::syncs::{BinarySync, Signaled};
use crate::timeline::{Reach, SyncedTimeline, Taken};

impl<S: BinarySync> SyncedTimeline<S> {
    /// The first pending operation with the number of its take, if any is pending: its sync object is
    /// looked at first.
    pub fn first(&self) -> Option<Taken>
        ensures some { IfSome result (IsFirst self.now) }
        ensures none { result ≡ None → first_pending self.now.live ≡ None }
    {
        let given = self.timeline.first()?;
        let number = *self.numbers.get(given.point as usize)?;
        Some(Taken { given, number })
    }

    /// Completes the first pending operation, by what shows that the sync object of its own take was seen
    /// signaled. What is of another operation, or of an earlier take of that point, is handed back.
    pub fn complete(&mut self, signaled: Signaled<S>) -> Result<Taken, Signaled<S>>
        ensures answer { HasCompleted self.old self.new signaled.point signaled.number result }
        ensures back { IfErr result (λ back. back ≡ signaled) }
    {
        match self.first() {
            Some(taken) if taken.given.point == signaled.point && taken.number == signaled.number =>
                {
                    let _ = self.timeline.complete();
                    self.reach = Reach::Work { taken };
                    Ok(taken)
                }
            _ => Err(signaled),
        }
    }

    /// The value that the timeline reached, and how: where by work, the operation has that value, and the
    /// sync object of its own take was seen signaled.
    pub fn value(&self) -> (u64, Reach)
        ensures value { result.0 ≡ self.now.live.payload }
        ensures reach { result.1 ≡ self.now.reach }
        ensures reached { IsReached S.signaled result.0 result.1 }
    {
        (self.timeline.value(), self.reach)
    }
}
