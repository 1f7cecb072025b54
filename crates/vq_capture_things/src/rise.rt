//! A signal of a timeline.

/// A signal of a timeline, at a line.
#[derive(Clone, Copy)]
pub struct Rise {
    pub value: u64,
    pub line: u64,
}
