//! A capture: its lines as steps, its faults, and the verdict on it.
//!
//! Source: this project's own.
use crate::statement::Statement;

/// What a line of a capture says, and where.
#[derive(Clone, Copy)]
pub struct Step {
    /// The number of the line, from 1.
    pub line: u64,
    /// The line that declared its queue: of lines of a batch, of those that begin one, and of `idle`.
    pub queue: Option<u64>,
    /// The line that named its host thread first, 0 where none was named: of what the host does.
    pub thread: Option<u64>,
    /// Of an access of a command: the line behind which the command begins.
    pub command: Option<u64>,
    pub statement: Statement,
}

/// The kinds of faults, in their order within a line.
#[derive(Clone, Copy, Debug, PartialEq, Eq)]
pub enum FaultKind {
    /// A byte or a name isn't as it must be, or the words match no line of their place.
    Syntax,
    /// A line of a batch in an earlier part than a line before it, or a second fence.
    Order,
    /// No numeral at a numeral's place, or too large a one.
    Number,
    /// No stages at their place, or `none` of an access.
    Stages,
    /// A name that isn't declared, or is of another kind than its place needs.
    Name,
    /// A name that is declared already.
    Twice,
    /// A resource or an access of no units, or units that aren't all in the resource.
    Range,
    /// A wait for what no line above releases.
    NoSignal,
}

/// The first faulty line.
#[derive(Clone, Copy)]
pub struct Fault {
    pub line: u64,
    pub kind: FaultKind,
}

/// What is said of a capture.
#[derive(Clone, Copy)]
pub enum Verdict {
    /// Conflicting accesses are ordered, and no line is faulty.
    Ordered,
    /// Two accesses conflict, and nothing orders them: their lines.
    Race { first: u64, second: u64 },
    Faulty { fault: Fault },
}
