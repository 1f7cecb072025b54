//! An access, with the first lanes of its sites.
use vq_capture::capture::Step;

/// The first lanes of the sites of a step: its queue, its thread, and the thread that it comes after.
#[derive(Clone, Copy)]
pub struct StepLanes {
    pub queue: usize,
    pub thread: usize,
    pub after: usize,
}

/// A step that accesses, with the first lanes of its sites.
#[derive(Clone, Copy)]
pub struct Touch {
    pub step: Step,
    pub at: StepLanes,
}
