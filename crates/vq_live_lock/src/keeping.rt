//! Showing a raised payload, and keeping the least value that is waited for.
//!
//! Source: this project's own.
ghost use Rattle.std.specs.Prelude.{◌≡◌, ◌≤◌, None, IfSome};
ghost use Rattle.vq_live_lock.specs.Keeping.{IsHeld, IsRungFor, IsShown};
ghost use Rattle.vq_live_lock.specs.Named.{IsLeft, Shows};

use crate::bell::Bell;
use crate::gauge::{Gauge, Note, Reached};
use crate::kept::Kept;

impl Kept {
    /// Raises the gauge to the payload, and hands out what shows it. It says whether a value is reached
    /// that somebody may wait for; then the bell is rung before the payload is shown, and nobody is known to
    /// wait.
    pub(crate) fn publish(&mut self, gauge: &Gauge, bell: &Bell) -> (bool, Reached)
        requires { IsHeld gauge.now bell.now self.old }
        ensures shown { IsShown gauge.now bell.now self.new }
        ensures reached { Shows gauge.now result.1 self.old.timeline.payload }
        ensures timeline { self.new.timeline ≡ self.old.timeline }
        ensures rings { IsRungFor self.old.least self.old.timeline.payload result.0 self.new.least }
    {
        let payload = self.timeline.value();
        match self.least {
            Some(least) if least <= payload => {
                bell.count(&mut self.heard);
                gauge.clear(&mut self.pen, payload);
                self.least = None;
                (true, gauge.shown(&mut self.pen))
            }
            _ => {
                gauge.raise(&mut self.pen, payload);
                (false, gauge.shown(&mut self.pen))
            }
        }
    }

    /// Leaves a note that somebody waits for this value, unless it is reached.
    pub(crate) fn watch(&mut self, gauge: &Gauge, bell: &Bell, value: u64) -> Option<Note>
        requires { IsShown gauge.now bell.now self.old }
        ensures shown { IsShown gauge.now bell.now self.new }
        ensures timeline { self.new.timeline ≡ self.old.timeline }
        ensures reached { result ≡ None → value ≤ self.old.timeline.payload }
        ensures left { IfSome result (λ note. IsLeft gauge.now note value) }
    {
        if value <= self.timeline.value() {
            return None;
        }
        let rings = bell.hear_again(&mut self.heard);
        let least = match self.least {
            Some(least) if least <= value => least,
            _ => value,
        };
        self.least = Some(least);
        Some(gauge.note(&mut self.pen, least, &self.heard, rings))
    }
}
