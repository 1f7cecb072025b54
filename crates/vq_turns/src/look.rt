//! What an actor finds, holds and has seen while it waits.
//!
//! Source: this project's own, where an item names no other.

/// What a look for a value of a chain finds, by the operation that resolves it: the first of the chain with
/// this value or a greater one. Source: this project's own, over Vulkan 1.3, "Semaphore Waiting".
#[derive(Clone, Copy, Debug, PartialEq, Eq)]
pub enum Found {
    /// The operation is past, or the value isn't above the initial one.
    Past,
    /// The operation is pending, with this point.
    Pending { op: u32, point: u32 },
    /// The operation isn't pending yet.
    NotYet { op: u32 },
}

/// A reference to a point that an actor holds, while the point carries this operation. The need for which it
/// was taken is named by its index in the task, from 0.
#[derive(Clone, Copy, Debug, PartialEq, Eq)]
pub struct Holding {
    pub need: u32,
    pub point: u32,
    pub op: u32,
}

/// A value that was asked for, with the past value of the chain when it was compared.
#[derive(Clone, Copy, Debug, PartialEq, Eq)]
pub struct Seen {
    pub wanted: u64,
    pub past: u64,
}
