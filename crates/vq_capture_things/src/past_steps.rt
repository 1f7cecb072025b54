//! The steps of the lines above, which no memory holds: clauses alone read them.
use std::snapshot::Snapshot;
use vq_capture::capture::Step;

/// The steps of some lines: those of the lines before, and one more.
#[derive(Drop)]
pub enum PastSteps {
    NoSteps,
    More {
        before: Snapshot<PastSteps>,
        step: Step,
    },
}
