//! What a run leaves.
//!
//! Source: this project's own, where an item names no other.
use vq_board::Closed;
use vq_model::plan::AnswerLine;
use vq_order::Ordered;

/// The plan that was run; what its host steps were answered, with the lines of the steps, in the order in which the
/// answers were given; and the board that was closed, with the bytes of its buffers.
#[derive(Drop)]
pub struct Report {
    pub ordered: Ordered,
    pub answers: Vec<AnswerLine>,
    pub closed: Closed,
}
