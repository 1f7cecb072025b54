//! The kinds of step.

/// A kind of bare step.
#[derive(Clone, Copy)]
pub(crate) enum BareStep {
    Load,
    Store,
    Exchange,
    Add,
}

/// A question of one load: how far a job is, or an operation, or what a point carries.
#[derive(Clone, Copy)]
pub(crate) enum Question {
    Job,
    Recall,
    Look,
}

/// A kind of step of a board.
#[derive(Clone, Copy)]
pub(crate) enum BoardStep {
    Ask(Question),
    Reference,
    Turn,
}

/// What is measured.
#[derive(Clone, Copy)]
pub(crate) enum Kind {
    Bare(BareStep),
    Board(BoardStep),
}

impl Kind {
    /// The kind with this name.
    pub(crate) fn named(name: &str) -> Option<Kind> {
        match name {
            "bare-load" => Some(Kind::Bare(BareStep::Load)),
            "bare-store" => Some(Kind::Bare(BareStep::Store)),
            "bare-cas" => Some(Kind::Bare(BareStep::Exchange)),
            "bare-add" => Some(Kind::Bare(BareStep::Add)),
            "job_state" => Some(Kind::Board(BoardStep::Ask(Question::Job))),
            "recall" => Some(Kind::Board(BoardStep::Ask(Question::Recall))),
            "look" => Some(Kind::Board(BoardStep::Ask(Question::Look))),
            "refer" => Some(Kind::Board(BoardStep::Reference)),
            "turn" => Some(Kind::Board(BoardStep::Turn)),
            _ => None,
        }
    }
}

/// What the batches of a row have.
#[derive(Clone, Copy)]
pub(crate) struct Form {
    pub(crate) command: bool,
    pub(crate) signal: bool,
}

impl Form {
    /// The form with this name.
    pub(crate) fn named(name: &str) -> Option<Form> {
        let (command, signal) = match name {
            "idle" => (false, false),
            "command" => (true, false),
            "signal" => (false, true),
            "whole" => (true, true),
            _ => return None,
        };
        Some(Form { command, signal })
    }
}

/// How far a row of batches is taken: all of them through one kind of step, then all through the next.
#[derive(Clone, Copy, PartialEq, Eq, PartialOrd, Ord)]
pub(crate) enum Phase {
    Opened,
    Submitted,
    /// The shelf has made the points.
    Made,
    Assigned,
    /// The host has looked at the points.
    Found,
    Released,
    /// The shelf has seen the batches released.
    Known,
    Bound,
    /// The ring has run the batches.
    Run,
    /// The shelf has seen them finished.
    Seen,
    Completed,
    Retired,
}

impl Phase {
    /// The phase with this name.
    pub(crate) fn named(name: &str) -> Option<Phase> {
        match name {
            "opened" => Some(Phase::Opened),
            "submitted" => Some(Phase::Submitted),
            "made" => Some(Phase::Made),
            "assigned" => Some(Phase::Assigned),
            "found" => Some(Phase::Found),
            "released" => Some(Phase::Released),
            "known" => Some(Phase::Known),
            "bound" => Some(Phase::Bound),
            "run" => Some(Phase::Run),
            "seen" => Some(Phase::Seen),
            "completed" => Some(Phase::Completed),
            "retired" => Some(Phase::Retired),
            _ => None,
        }
    }
}
