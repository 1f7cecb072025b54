ghost use Rattle.std.specs.Prelude.{◌≡◌};

use vq_live::{Given, TakeFault};

/// A value of a timeline, which a batch waits for or signals. Of a binary semaphore or a fence the value is counted by
/// the layer, and this one isn't looked at. It is laid out as in C, so that a caller in C passes a list of them as it is.
#[repr(C)]
#[derive(Clone, Copy, PartialEq, Eq, Debug)]
pub struct Wanted {
    pub timeline: u32,
    pub value: u64,
}

/// A wait of a batch, with its value, a counted one of a binary semaphore. A released batch waits for the point that it
/// holds; it holds none where the value was past at its release.
#[derive(Clone, Copy, PartialEq, Eq, Debug)]
pub struct Wait {
    pub wanted: Wanted,
    pub held: Option<u32>,
}

/// A signal of a batch: its operation, which has its point since the submission.
#[derive(Clone, Copy, PartialEq, Eq, Debug)]
pub struct Signal {
    pub timeline: u32,
    pub given: Given,
}

/// What a number stands for: nothing, a timeline, or a binary semaphore or a fence. The n-th signal of a binary
/// semaphore is value n of a timeline of the layer's own. A wait takes the signal that was submitted last, as the host's
/// reset does of a fence: its value is the number of signals that are taken from then on.
#[derive(Clone, Copy, PartialEq, Eq, Debug)]
pub enum Kind {
    Closed,
    Timeline,
    Binary { signals: u64, taken: u64 },
}

/// Why a batch wasn't submitted: there is no such queue; or too many waits are in flight; or there is no such timeline;
/// or a binary semaphore that it waits for has no signal to take; or one that it signals has one that isn't taken, or
/// was signaled 2^64 - 1 times; or it names a binary semaphore twice; or a point can't be taken; or there is no memory.
#[derive(Clone, Copy, PartialEq, Eq, Debug)]
pub enum SubmitFault {
    NoQueue,
    Full,
    NoTimeline { timeline: u32 },
    Unsignaled { timeline: u32 },
    Signaled { timeline: u32 },
    Repeated { timeline: u32 },
    NotTaken { timeline: u32, fault: TakeFault },
    NoMemory,
}

/// Why a batch can't be taken back: there is no such queue; or nothing is held back; or a later submission or a reset has
/// used a signal or a wait of a binary semaphore that it names.
#[derive(Clone, Copy, PartialEq, Eq, Debug)]
pub enum TakeBackFault {
    NoQueue,
    Empty,
    Used { timeline: u32 },
}

/// Why no batch of a queue is released: there is no such queue; or nothing is held back; or the first held-back batch
/// waits for a value that is neither past nor pending; or it signals behind an operation that isn't installed.
#[derive(Clone, Copy, PartialEq, Eq, Debug)]
pub enum Blocked {
    NoQueue,
    Empty,
    Waits { wanted: Wanted },
    Behind { signal: Signal },
}

/// Why a timeline isn't closed: there is none; or a batch of a queue names it and isn't finished; or a point of it is
/// held, so by the host.
#[derive(Clone, Copy, PartialEq, Eq, Debug)]
pub enum CloseFault {
    NoTimeline,
    Named { queue: u32 },
    Held { point: u32 },
}

/// Why the host can't set a value: there is no such timeline, or it is a binary semaphore; or the timeline reached the
/// value; or the first operation, which is taken or pending, has a value that isn't above it.
#[derive(Clone, Copy, PartialEq, Eq, Debug)]
pub enum SetFault {
    NoTimeline,
    NotAbove { payload: u64 },
    Outstanding { first: u64 },
}

/// Why a fence isn't reset: there is none; or its signal is submitted and not reached.
#[derive(Clone, Copy, PartialEq, Eq, Debug)]
pub enum ResetFault {
    NoBinary,
    InUse,
}
