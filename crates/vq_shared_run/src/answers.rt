//! What is answered of a run's end.
//!
//! Source: this project's own.

/// What the host answers that is asked whether all jobs are finished.
#[derive(Clone, Copy)]
pub enum Look {
    Finished,
    /// The host's program has not ended, or a job was seen that isn't finished.
    Unfinished,
    /// Another actor was asked.
    NotHost,
}

/// What comes of closing the board.
#[derive(Clone, Copy)]
pub enum Shut {
    Closed,
    /// Not all jobs are finished.
    Unfinished,
    /// Others have shares of the run still.
    Shared,
    /// Another actor was asked.
    NotHost,
}
