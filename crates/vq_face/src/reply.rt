//! What a call on a handle answers.
//!
//! Source: this project's own.

/// What a call on a handle answers: that it is done, what a turn came to, or why nothing was done.
#[derive(Clone, Copy)]
pub enum Reply {
    Done,
    NoMemory,
    Moved,
    Blocked,
    Ended,
    NoActor,
    NoOp,
    NoBuffer,
    Unfinished,
    NoRoom,
    NotHost,
    Shared,
    WrongKind,
    Closed,
    NoHandle,
}
