//! The opening of a timeline.
//!
//! Source: this project's own.
ghost use Rattle.std.specs.Prelude.{◌≡◌, ◌<◌, length, map, IfOk};
ghost use Rattle.vq_model.specs.LoweredPlans.{IsPlan};
ghost use Rattle.vq_model.specs.Plan.{chain as operations_of};
ghost use Rattle.vq_board_laws.specs.declared.view.Role.TheVariants.{Shelf as ShelfRole};
ghost use Rattle.vq_board.specs.Named.{plan_of, role_of, IsFresh};
ghost use Rattle.vq_timeline_laws.specs.ChainOps.{of_host};
ghost use Rattle.vq_timeline.specs.Named.{chain_at, IsAt};

use crate::parts::{Home, Shelf};
use crate::timeline::LockedTimeline;
use std::alloc::{AllocError, Global};
use std::snapshot::Snapshot;
use vq_board::{Board, Pass};
use vq_lock::KeyedLock;
use vq_model::plan::Lane;
use vq_order::Ordered;
use vq_payload::Chain;
use vq_spec::Plan;
use vq_timeline_core::TimelineCore;

/// Whether the job of an operation is a host step.
fn is_of_host(plan: &Plan, op: u32) -> bool
    requires plan { IsPlan plan.now }
    requires exists { op < length plan.now.ops }
    ensures { result ≡ of_host plan.now op }
{
    matches!(plan.job(plan.op(op).job).lane, Lane::Host)
}

/// Of each operation of a chain, whether its job is a host step.
fn hosts_of(alloc: Global, plan: &Plan, chain: u32) -> Result<Vec<bool>, AllocError>
    requires plan { IsPlan plan.now }
    requires exists { chain < length plan.now.chains }
    ensures { IfOk result (λ xs. xs.items ≡ map (of_host plan.now) (operations_of plan.now chain)) }
{
    let mut hosts = Vec::new(alloc);
    for op in plan.chain(chain) {
        hosts.push(is_of_host(plan, *op))?;
    }
    Ok(hosts)
}

impl LockedTimeline {
    /// The timeline of a chain before its first point. The pass is the fresh one of the chain's shelf. The
    /// error is want of memory; no other call takes memory.
    pub fn new(
        alloc: Global,
        ordered: &Ordered,
        board: &Board,
        chain: u32,
        shelf: Pass,
    ) -> Result<LockedTimeline, AllocError>
        requires plan { plan_of board.now ≡ ordered.now }
        requires exists { chain < length ordered.now.chains }
        requires fresh { IsFresh board.now shelf }
        requires role { role_of shelf ≡ ShelfRole chain }
        ensures board { IfOk result (IsAt board.now) }
        ensures chain { IfOk result (λ t. chain_at t ≡ chain) }
    {
        let plan = ordered.plan();
        let outside = Chain::new(alloc, ordered, chain)?;
        let core = TimelineCore::new(alloc, outside.initial(), outside.values())?;
        let ops = Vec::from_slice(alloc, plan.chain(chain))?;
        let of_hosts = hosts_of(alloc, plan, chain)?;
        let home = Home {
            board: Snapshot::of(board),
            chain,
        };
        let shelf = Shelf {
            core,
            pass: shelf,
            chain,
            ops,
            of_hosts,
        };
        let lock = KeyedLock::new(alloc, &home, shelf)?;
        Ok(LockedTimeline {
            lock,
            chain: outside,
        })
    }
}
