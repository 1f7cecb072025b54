//! The value that a timeline reached, read with no lock.
//!
//! Source: this project's own.
ghost use Rattle.std.specs.Prelude.{ℕ, ◌≡◌, ◌≤◌};
ghost use Rattle.vq_live_lock.specs.Locked.{HasReached, IsReadAs, started_with};

use crate::gauge::Reached;
use crate::locked::LockedLive;

impl LockedLive {
    /// The value that the timeline reached, and what shows it. It takes no lock.
    pub fn look(&self) -> (u64, Reached)
        ensures shows { IsReadAs self.now result.1 result.0 }
        ensures from { started_with self.now ≤ result.0 }
    {
        self.gauge.look()
    }

    /// The value that the timeline reached, which isn't below one that is known to be reached. It takes
    /// no lock.
    pub fn look_again(&self, reached: &mut Reached) -> u64
        requires { (n : ℕ) × HasReached self.now reached.old n }
        ensures shows { IsReadAs self.now reached.new result }
        ensures rises { (n : ℕ) → HasReached self.now reached.old n → n ≤ result }
    {
        self.gauge.look_again(reached)
    }
}
