//! What a call answers beside the faults of a live timeline.

/// What a call answers where the timeline names no fault.
#[derive(Clone, Copy)]
pub enum Reply {
    Done,
    NoMemory,
    NoHandle,
    NothingTaken,
    NothingPending,
    NotHeld,
}
