//! What an actor of a shared run is at.
//!
//! Source: this project's own.
use std::marker::Model;
use vq_board::Pass;
use vq_board_run::{AccessRoom, Lead};
use vq_model::plan::AnswerLine;

/// The host after the end of its program: its pass, which has seen so many of the first jobs finished, and the answers
/// that it told.
#[derive(Drop)]
pub struct Watch {
    pub(crate) pass: Pass,
    pub(crate) answers: Vec<AnswerLine>,
    pub(crate) seen: u32,
}

impl Model for Watch {
    ghost use Rattle.std.specs.Coded.{codes};
    ghost use Rattle.vq_board.specs.contracts.parts.Pass as pass_row;
    ghost use Rattle.vq_shared_run.specs.Shown.{HasSeenFirst, Watched};

    ghost Value = { Watched };

    ghost coded = { Prim.hlevel (codes, pass_row.the_row.coded) };

    ghost view = { λ w. record { pass = w.pass; answers = w.answers.items; seen = w.seen } };

    ghost invariant = { λ w. HasSeenFirst w.pass w.seen };
}

/// What an actor is at: a worker, or the host, or the host after the end of its program.
#[derive(Drop)]
pub enum Stand {
    Worker(AccessRoom),
    Host(Lead),
    Ended(Watch),
}
