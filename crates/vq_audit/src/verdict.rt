//! Whether a trace is lawful.

/// Whether a trace is lawful.
#[derive(Clone, Copy, Debug, PartialEq, Eq)]
pub enum Verdict {
    /// Its events may come as they stand, and what follows them is true.
    Lawful,
    /// This is the first line that is wrong; it may be the one after the last.
    Broken { line: u32 },
}
