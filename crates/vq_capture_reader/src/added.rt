//! What a line added.
use vq_capture::capture::Step;

/// A step that a line added, with the lines above it that release it.
#[derive(Drop)]
pub struct Added {
    pub step: Step,
    pub released: Vec<u64>,
}
