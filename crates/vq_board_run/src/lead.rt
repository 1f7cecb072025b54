//! The host before its first turn.
//!
//! Source: this project's own.
ghost use Rattle.std.specs.Prelude.{◌≡◌, IfOk};
ghost use Rattle.vq_actor.specs.Companies.{IsCompanyOf};
ghost use Rattle.vq_board.specs.Named.{plan_of, view, IsCut};
ghost use Rattle.vq_board_run.specs.Crewed.{MayLead};
ghost use Rattle.vq_board_run.specs.Unused.{IsUnusedLead};

use crate::room::AccessRoom;
use std::alloc::{AllocError, Global};
use vq_actor::Company;
use vq_board::{Board, Pass};
use vq_model::plan::AnswerLine;
use vq_model::script::ActorName;
use vq_order::Ordered;
use vq_spec::asking;

/// The host's room, and where the answers go, with room for one to each step that asks.
#[derive(Drop)]
pub struct Lead {
    pub room: AccessRoom,
    pub answers: Vec<AnswerLine>,
}

/// The host's room, with room for an answer to each step that asks something.
pub(crate) fn lead_of(
    alloc: Global,
    ordered: &Ordered,
    board: &Board,
    company: &Company,
    host: Pass,
) -> Result<Lead, AllocError>
    requires plan { plan_of board.now ≡ ordered.now }
    requires company { IsCompanyOf ordered.now company.now }
    requires host { IsCut board.now host (view host).given }
    ensures lead { IfOk result (MayLead board.now) }
    ensures unused { IfOk result (IsUnusedLead ordered.now) }
{
    let _ = board;
    let answers = Vec::with_capacity(alloc, asking(ordered.plan()))?;
    let room = AccessRoom::new(alloc, ordered, company, ActorName::Host, host)?;
    Ok(Lead { room, answers })
}
