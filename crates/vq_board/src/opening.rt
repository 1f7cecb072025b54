//! The opening of a board.
//!
//! Source: this project's own, where an item names no other.
ghost use Rattle.std.specs.Prelude.{◌≡◌, ◌<◌, ◌^◌, length, map, replicate, IfOk};
ghost use Rattle.vq_model.specs.Checks.{IsLawful};
ghost use Rattle.vq_model.specs.LoweredPlans.{IsPlan};
ghost use Rattle.vq_board_laws.specs.Words.{word_count};
ghost use Rattle.vq_board.specs.Named.{plan_of, IsCut, AreDealt};

use crate::copies::Copies;
use crate::parts::{Board, Pass, Passes};
use atomic_table::Table;
use std::alloc::{AllocError, Global};
use std::snapshot::Snapshot;
use vq_board_laws::laws::runs_keep;
use vq_board_laws::view::{LoggedBuffers, Role};
use vq_order::Ordered;
use vq_spec::{Plan, zero_buffers};

/// How many words the board of a plan has.
fn word_count(plan: &Plan) -> usize
    ensures words { result ≡ word_count plan.now }
    ensures few { length plan.now.commands < 2 ^ 32 }
    ensures few_ops { length plan.now.ops < 2 ^ 32 }
{
    let most = plan.jobs().max(plan.ops().max(plan.commands()));
    4 * (most as usize + 1) + 2
}

impl Board {
    /// A board with the pass of the host.
    fn open(alloc: Global, plan: &Plan) -> Result<(Board, Pass), AllocError>
        requires plan { IsPlan plan.now }
        requires lawful { IsLawful plan.now }
        ensures plan { IfOk result (λ t. plan_of t.0 ≡ plan.now) }
        ensures host { IfOk result (λ t. IsCut t.0 t.1 0) }
    {
        // does nothing; its contract says what all runs of the plan keep
        runs_keep();
        let first_made = vec![in alloc; 0u32; plan.chains() as usize]?;
        let words = vec![in alloc; 0u64; word_count(plan)]?;
        let copies = Copies::of(alloc, plan)?;
        let buffers = zero_buffers(alloc, plan.script())?;
        let mut slots = Vec::new(alloc);
        slots.push(LoggedBuffers { buffers, filled: 0 })?;
        let Ok((table, seat)) = Table::new(alloc, words.as_slice(), slots, plan) else {
            return Err(AllocError);
        };
        let board = Board {
            table,
            copies,
            plan: Snapshot::of(plan),
        };
        let host = Pass {
            seat,
            role: Role::Host,
            runs: None,
            first_made,
        };
        Ok((board, host))
    }

    /// The board of a plan, with its passes. The error is want of memory;
    /// no other call takes memory.
    pub fn new(alloc: Global, ordered: &Ordered) -> Result<(Board, Passes), AllocError>
        ensures plan { IfOk result (λ t. plan_of t.0 ≡ ordered.now) }
        ensures passes { IfOk result (λ t. AreDealt t.0 t.1) }
    {
        let plan = ordered.plan();
        let script = plan.script();
        let (board, mut host) = Board::open(alloc, plan)?;
        let submits = board.deal_submits(alloc, script, &mut host)?;
        let rings = board.deal_rings(alloc, script.queues.len() as u32, &mut host)?;
        let shelves = board.deal_shelves(alloc, plan.chains(), &mut host)?;
        let passes = Passes {
            host,
            submits,
            rings,
            shelves,
        };
        Ok((board, passes))
    }
}
