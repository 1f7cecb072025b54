/// The point that an operation was given: the free one that was freed last, or the fresh one that the
/// caller offered. This project's own.
#[derive(Clone, Copy, PartialEq, Eq, Debug)]
pub enum Taken {
    Reused(u32),
    Fresh(u32),
}

/// An operation isn't the next one to be bound: `next` is the least index that isn't bound. This
/// project's own.
#[derive(Clone, Copy, PartialEq, Eq, Debug)]
pub struct NotNext {
    pub next: u32,
}

/// Where a value of the timeline stands. It is past, with how many operations are completed; or
/// `index` is the least pending operation whose value is at least this one, and `point` its point; or
/// no bound operation has such a value yet, with how many are bound. This project's own.
#[derive(Clone, Copy, PartialEq, Eq, Debug)]
pub enum Found {
    Past { past: u32 },
    Pending { index: u32, point: u32 },
    NotYet { bound: u32 },
}

/// Where an operation stands: without a point, with a point that is taken for it, bound and pending
/// with its point, or completed. This project's own.
#[derive(Clone, Copy, PartialEq, Eq, Debug)]
pub enum OpPlace {
    Without,
    Taken { point: u32 },
    Pending { point: u32 },
    Past,
}
