//! The names that were declared, which no memory holds: clauses alone read them.
use std::snapshot::Snapshot;
use vq_capture::statement::Kind;

/// What a name stands for: its kind, and the line of its declaration.
#[derive(Clone, Copy)]
pub struct Thing {
    pub kind: Kind,
    pub line: u64,
}

/// The names behind some lines: those behind the lines before, with one more or without one.
#[derive(Drop)]
pub enum PastNames {
    NoNames,
    Declared {
        before: Snapshot<PastNames>,
        name: Snapshot<Vec<u8>>,
        thing: Thing,
    },
    Ended {
        before: Snapshot<PastNames>,
        name: Snapshot<Vec<u8>>,
    },
}
