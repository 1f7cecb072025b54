//! A line that was read.
use vq_capture::capture::FaultKind;
use vq_capture::statement::Statement;

/// What a line says, with the lines above it that release it, and its first fault.
#[derive(Drop)]
pub struct ReadLine {
    pub said: Statement,
    pub released: Vec<u64>,
    pub fault: Option<FaultKind>,
}
