//! The rooms of a plan's workers, before their first turns.
//!
//! Source: this project's own.
ghost use Rattle.std.specs.Prelude.{◌≡◌, map, length, IfOk};
ghost use Rattle.std.specs.List.{range_with_len};
ghost use Rattle.vq_actor.specs.Companies.{IsCompanyOf};
ghost use Rattle.vq_board.specs.Named.{plan_of, AreFresh};
ghost use Rattle.vq_board_laws.specs.declared.view.Role.TheVariants.{Submit as SubmitRole, Ring as RingRole};
ghost use Rattle.vq_board_laws.specs.Roles.{threaded_queues};
ghost use Rattle.vq_board_run.specs.Crewed.{AreWorkersOf};
ghost use Rattle.vq_board_run.specs.Crews.{worker_of};

use crate::room::AccessRoom;
use std::alloc::{AllocError, Global};
use vq_actor::Company;
use vq_board::{Board, Pass, Role};
use vq_model::script::ActorName;
use vq_order::Ordered;

/// The worker that steps with the pass of a role. The host is none, and a shelf's pass is no actor's.
fn worker_of(role: Role) -> Option<ActorName>
    ensures { result ≡ worker_of role }
{
    match role {
        Role::Submit(queue) => Some(ActorName::Submit(queue)),
        Role::Ring(queue) => Some(ActorName::Ring(queue)),
        Role::Host | Role::Shelf(_) => None,
    }
}

/// A room for the submitting thread of each threaded queue, and for the ring of each queue.
pub(crate) fn rooms_of(
    alloc: Global,
    ordered: &Ordered,
    board: &Board,
    company: &Company,
    submits: Vec<Pass>,
    rings: Vec<Pass>,
) -> Result<Vec<AccessRoom>, AllocError>
    requires plan { plan_of board.now ≡ ordered.now }
    requires company { IsCompanyOf ordered.now company.now }
    requires submits { AreFresh board.now submits.items (map SubmitRole (threaded_queues ordered.now)) }
    requires rings { AreFresh board.now rings.items
        (map RingRole (range_with_len 0 (length ordered.now.script.queues))) }
    ensures { IfOk result (λ rooms. AreWorkersOf board.now rooms.items) }
{
    let _ = board;
    let mut rooms = Vec::with_capacity(alloc, submits.len() + rings.len())?;
    for pass in submits.into_iter().chain(rings) {
        // both lists have passes of workers alone
        let Some(actor) = worker_of(pass.role()) else {
            continue;
        };
        rooms.push(AccessRoom::new(alloc, ordered, company, actor, pass)?)?;
    }
    Ok(rooms)
}
