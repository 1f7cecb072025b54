//! The verdict on a capture, where memory is asked for too.
//!
//! Source: this project's own.
use vq_capture::capture::Fault;

/// What is said of a capture.
#[derive(Clone, Copy)]
pub enum MemoryVerdict {
    /// Conflicting accesses are ordered, each write is seen by what it is ordered before, and no line is faulty.
    AllSeen,
    /// Two accesses conflict, and nothing orders them: their lines.
    Racing { first: u64, second: u64 },
    /// A write is ordered before an access, which doesn't see it: their lines.
    NotSeen { first: u64, second: u64 },
    Refused { fault: Fault },
}
