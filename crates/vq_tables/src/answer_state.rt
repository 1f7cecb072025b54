//! What may be answered of a job by what was reached at its start.
ghost use Rattle.std.specs.Prelude.{◌≡◌};
ghost use Rattle.vq_tables.specs.AnswerStates.{not_asked};

/// What may be answered of a job by what was reached at its start. Later signals change nothing of it:
/// payloads only rise.
#[derive(Clone, Copy)]
pub struct AnswerState {
    /// Whether it is answered.
    pub answered: bool,
    /// Whether what it asks for was reached at its start: one pair where it asks for any, else all.
    pub reached: bool,
    /// The payload, at its start, of the chain that it reads.
    pub payload: u64,
}

impl AnswerState {
    /// Of a job that isn't started.
    pub fn not_asked() -> AnswerState
        ensures { result ≡ not_asked }
    {
        AnswerState {
            answered: false,
            reached: false,
            payload: 0,
        }
    }
}
