//! What one task of a turn comes to.
use vq_turns::outcome::Outcome;

/// The turn goes on with the next task, or it has its outcome.
#[derive(Clone, Copy)]
pub(crate) enum Doing {
    GoesOn,
    Ends(Outcome),
}
