//! What lies under the lock of a timeline, what the lock was made for, and what its calls answer.
//!
//! Source: this project's own.
use std::snapshot::Snapshot;
use vq_board::{Board, JobState, Pass};
use vq_lock::Fits;
use vq_timeline_core::{OpPlace, TimelineCore};

/// Which board and which chain a lock was made for.
#[derive(Drop)]
pub struct Home {
    pub board: Snapshot<Board>,
    pub chain: u32,
}

/// The lists of a chain's points, with the pass that makes their steps on the board. It keeps the chain's
/// operations, in the order of their values, and of each whether its job is a host step.
pub struct Shelf {
    pub(crate) core: TimelineCore,
    pub(crate) pass: Pass,
    pub(crate) chain: u32,
    pub(crate) ops: Vec<u32>,
    pub(crate) of_hosts: Vec<bool>,
}

impl Drop for Shelf {
    fn drop(self) {
        let Shelf {
            core: _core,
            pass: _pass,
            chain: _chain,
            ops: _ops,
            of_hosts: _of_hosts,
        } = self;
    }
}

impl Fits<Home> for Shelf {
    ghost use Rattle.vq_timeline.specs.Named.{IsAtHome};

    ghost fits = { IsAtHome };
}

/// Why an operation wasn't bound.
#[derive(Clone, Copy, PartialEq, Eq, Debug)]
pub enum BindFault {
    /// No point is taken for it: this is where it stands.
    NotTaken { place: OpPlace },
    /// An operation of smaller value isn't bound: `next` is the least index that isn't.
    NotNext { next: u32 },
    /// Its job, read in this call, was neither released nor started: this was read.
    NotReleased { seen: JobState },
}

/// What a collection did.
#[derive(Clone, Copy, PartialEq, Eq, Debug)]
pub enum Collected {
    /// It completed this operation, the least pending one.
    Completed(u32),
    /// It freed this point, which is the first to be used again.
    Freed(u32),
    Nothing,
}
