//! A live timeline with the numbers of its takes.
//!
//! Source: this project's own.
ghost use Rattle.std.specs.Prelude.{◌≡◌, length};

use crate::syncs::BinarySync;
use std::marker::{Model, PhantomData};
use vq_live::{Given, LiveTimeline};

/// An operation that was given a point, and the number of that take. No two takes of a timeline have one
/// number.
#[derive(Clone, Copy, PartialEq, Eq, Debug)]
pub struct Taken {
    pub given: Given,
    pub number: u64,
}

/// How a timeline came to its payload: it was opened with it; the host set it; or the work of this
/// operation was done.
#[derive(Clone, Copy, PartialEq, Eq, Debug)]
pub enum Reach {
    Opened,
    Host,
    Work { taken: Taken },
}

/// A live timeline whose operations complete only by what shows that the sync object of their own take
/// was seen signaled.
#[derive(Drop)]
pub struct SyncedTimeline<S: BinarySync> {
    pub(crate) timeline: LiveTimeline,
    // of each point the number of its last take
    pub(crate) numbers: Vec<u64>,
    pub(crate) next: u64,
    pub(crate) reach: Reach,
    pub(crate) of: PhantomData<S>,
}

impl<S: BinarySync> Model for SyncedTimeline<S> {
    ghost use Rattle.vq_live_syncs.specs.Synced.{Synced, IsSound};

    ghost Value = { Synced };

    ghost view = { λ t. record { live = t.timeline; numbers = t.numbers.items; next = t.next; reach = t.reach } };

    ghost invariant = { λ t. IsSound S.signaled (record { live = t.timeline; numbers = t.numbers.items; next = t.next; reach = t.reach }) };
}
