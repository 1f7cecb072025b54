//! What a turn comes to.
//!
//! Source: this project's own, where an item names no other.
use vq_model::plan::Event;

/// What a blocked actor waits for.
#[derive(Clone, Copy, Debug, PartialEq, Eq)]
pub enum Want {
    /// A batch is submitted.
    Submitted { job: u32 },
    /// A batch is released.
    Released { job: u32 },
    /// A signal operation is pending.
    Bound { op: u32 },
    /// A signal operation is pending, that another one of its chain has to follow.
    Next { op: u32 },
    /// A signal operation is signaled.
    Signaled { op: u32 },
    /// A job is finished.
    Finished { job: u32 },
    /// The buffers are in use by another actor.
    MemoryTurn,
    /// The word of an operation's point was changed by another actor; this one was found.
    Exchange { op: u32, found: u64 },
    /// The lists of an operation's chain are in use by another actor.
    Listed { op: u32 },
}

/// What a turn comes to.
#[derive(Clone, Copy)]
pub enum Outcome {
    /// The turn made this event.
    Moved(Event),
    /// The turn made no event: the actor waits for this.
    Blocked(Want),
    /// No task of the actor's is left.
    Ended,
}
