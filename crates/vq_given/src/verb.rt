//! The words by which a trace's line begins to tell an event.

/// What an event does, by its first word.
#[derive(Clone, Copy, Debug, PartialEq, Eq)]
pub enum Verb {
    Submit,
    Take,
    Release,
    Bind,
    Refer,
    Look,
    Unref,
    Complete,
    Free,
    Start,
    Apply,
    Signal,
    Finish,
    Answer,
}
