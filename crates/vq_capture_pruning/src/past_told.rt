//! The steps that a watch was told, which no memory holds: clauses alone read them.
use std::snapshot::Snapshot;
use vq_capture_check::Told;

/// Some steps: those of the lines before, and one more.
#[derive(Drop)]
pub enum PastTold {
    NothingTold,
    More {
        before: Snapshot<PastTold>,
        told: Snapshot<Told>,
    },
}
