//! How often an actor that is blocked looks again before it waits.
//!
//! Source: this project's own.
use crate::bells::{Bells, Place};
use crossbeam_utils::Backoff;
use vq_turns::outcome::Want;

/// The looks of one actor. It begins to wait at the bell of what it wants, and looks once more, so it misses no ring;
/// then it waits. Where it only lost against another actor it tries again.
#[derive(Drop)]
pub(crate) struct Looks {
    number: u32,
    /// It may wait for several things: for what it wants, and for any bound or signaled operation.
    is_wide: bool,
    /// Where it has begun to wait since it last moved.
    begun: Option<Place>,
    backoff: Backoff,
}

impl Looks {
    /// Of an actor that has just moved.
    pub(crate) fn new(number: u32, is_wide: bool) -> Looks {
        Looks {
            number,
            is_wide,
            begun: None,
            backoff: Backoff::new(),
        }
    }

    /// The actor moved, or was called.
    pub(crate) fn moved(&mut self) {
        self.begun = None;
        self.backoff.reset();
    }

    /// The actor is blocked. True if it waits from now on; else it is to look again.
    pub(crate) fn waits(&mut self, bells: &Bells, want: Want) -> bool {
        let Some(place) = Place::of(want) else {
            self.backoff.snooze();
            return false;
        };
        if let Some(begun) = self.begun {
            if begun.is(&place) {
                return true;
            }
        }
        bells.wait_at(place, self.number);
        if self.is_wide {
            for place in Place::any() {
                bells.wait_at(place, self.number);
            }
        }
        self.begun = Some(place);
        false
    }
}
