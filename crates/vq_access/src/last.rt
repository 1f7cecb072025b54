//! The last call of an access.
//!
//! Source: this project's own.

/// The last call, where it matters for the next.
#[derive(Clone, Copy)]
pub enum Last {
    Other,
    /// A collection on this chain that found nothing.
    Collected { chain: u32 },
    /// A look for the need of this index that found a pending operation with its point.
    FoundAt { need: usize, op: u32, point: u32 },
}
