//! What the lines of a capture say. A thing that was declared is named by the line of its declaration, so a name that
//! comes again is another thing.
//!
//! Source: this project's own, where an item names no other.
use crate::stage::Scope;

/// What a name may stand for.
#[derive(Clone, Copy, Debug, PartialEq, Eq)]
pub enum Kind {
    Queue,
    Binary,
    Timeline,
    Fence,
    Event,
    Resource,
    Thread,
    /// A batch that was handed over, and whose lines come later.
    Handed,
}

/// Whether an access reads or writes.
#[derive(Clone, Copy, Debug, PartialEq, Eq)]
pub enum AccessKind {
    Read,
    Write,
}

/// Units of a resource: bytes of a buffer, texels of an image. One at least.
#[derive(Clone, Copy)]
pub struct Range {
    pub offset: u64,
    pub length: u64,
}

/// An access of a resource.
#[derive(Clone, Copy)]
pub struct Access {
    pub kind: AccessKind,
    /// The line that declared the resource.
    pub resource: u64,
    pub range: Range,
}

/// What a line says. Of a thread that wasn't named, the line is 0.
#[derive(Clone, Copy)]
pub enum Statement {
    /// A queue, a binary semaphore, a fence or an event is made.
    Declare {
        kind: Kind,
    },
    DeclareTimeline {
        initial: u64,
    },
    DeclareResource {
        length: u64,
    },
    /// What was declared at this line is gone.
    Forget {
        declared: u64,
    },
    /// What follows is done by this host thread.
    GoOn {
        thread: u64,
    },
    /// The thread goes on after all that another one has done.
    After {
        thread: u64,
    },
    Submit {
        queue: u64,
    },
    /// A batch is handed over, whose lines come later.
    HandOver,
    SubmitHanded {
        queue: u64,
        handed: u64,
    },
    HostSignal {
        timeline: u64,
        value: u64,
    },
    /// The host knows that a timeline has reached a value.
    SawValue {
        timeline: u64,
        value: u64,
    },
    /// The host knows that a fence is signaled.
    SawFence {
        fence: u64,
    },
    /// The host has waited until a queue is idle.
    WaitIdle {
        queue: u64,
    },
    HostAccess {
        access: Access,
    },
    /// All above is taken as ordered before all below.
    Cut,
    /// A semaphore wait operation for a timeline's value.
    WaitTimeline {
        timeline: u64,
        value: u64,
        scope: Scope,
    },
    WaitBinary {
        semaphore: u64,
        scope: Scope,
    },
    /// An access of a command, at each of these stages.
    CommandAccess {
        access: Access,
        scope: Scope,
    },
    /// The accesses that follow are of another command.
    Next,
    Barrier {
        first: Scope,
        second: Scope,
    },
    /// A barrier that writes between its scopes: a layout transition, or a transfer of ownership.
    Transition {
        first: Scope,
        second: Scope,
        access: Access,
    },
    SetEvent {
        event: u64,
        scope: Scope,
    },
    AwaitEvent {
        event: u64,
        scope: Scope,
    },
    SignalTimeline {
        timeline: u64,
        value: u64,
        scope: Scope,
    },
    SignalBinary {
        semaphore: u64,
        scope: Scope,
    },
    SignalFence {
        fence: u64,
    },
    EndBatch,
}
