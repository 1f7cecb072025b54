//! What a thread owes to those whom its turns let go on.
//!
//! Source: this project's own.
use crate::actors::{Actors, CALLER};
use crate::bells::Bells;
use vq_model::plan::Event;

/// Whose turns a thread has yet to take: it called them. It takes them once it can't go on with its own ones. To wake
/// their threads instead costs as much as some dozens of turns, and threads that take turns at once take longer for
/// each, since they write to the same words.
#[derive(Drop)]
pub(crate) struct Duty {
    owed: Actors,
    /// Each actor's turns are taken by its own thread.
    is_strict: bool,
}

impl Duty {
    /// Of a thread that owes nothing.
    pub(crate) fn new(is_strict: bool) -> Duty {
        Duty {
            owed: Actors::none(),
            is_strict,
        }
    }

    /// An event was made: those whom it may let go on are called.
    pub(crate) fn made(&mut self, bells: &Bells, event: &Event) {
        let called = bells.ring(event);
        if self.is_strict {
            bells.wake_all(called);
        } else {
            self.owed = self.owed.and(called);
        }
    }

    /// The next of those whose turns it takes itself. The caller, whose turns no other thread takes, comes last, and is
    /// woken.
    pub(crate) fn next(&mut self, bells: &Bells) -> Option<u32> {
        let number = self.owed.first()?;
        self.owed = self.owed.without(Actors::of(number));
        if number == CALLER {
            bells.wake(CALLER);
            return None;
        }
        Some(number)
    }
}
