//! What a shared run has left.
//!
//! Source: this project's own.
use std::marker::Model;
use vq_board::Closed;
use vq_model::plan::AnswerLine;
use vq_order::Ordered;

/// What a run has left: its plan, what its host steps were answered, and the board that was closed. The answers with the
/// buffers are an output of the plan.
#[derive(Drop)]
pub struct Left {
    pub(crate) ordered: Ordered,
    pub(crate) answers: Vec<AnswerLine>,
    pub(crate) closed: Closed,
}

impl Model for Left {
    ghost use Rattle.std.specs.Coded.{codes};
    ghost use Rattle.vq_board.specs.contracts.parts.Closed as closed_row;
    ghost use Rattle.vq_shared_run.specs.Shown.{IsLeftOver, LeftOver};

    ghost Value = { LeftOver };

    ghost coded = { Prim.hlevel (codes, closed_row.the_row.coded) };

    ghost view = { λ l. record { ordered = l.ordered; answers = l.answers.items; closed = l.closed } };

    ghost invariant = { λ l. IsLeftOver l.ordered l.answers.items l.closed };
}
