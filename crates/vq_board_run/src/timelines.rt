//! The timelines of a plan's chains.
//!
//! Source: this project's own.
ghost use Rattle.std.specs.Prelude.{◌≡◌, length, map, IfOk};
ghost use Rattle.std.specs.List.{range_with_len};
ghost use Rattle.vq_access.specs.Timelines.{AreOf};
ghost use Rattle.vq_board.specs.Named.{plan_of, AreFresh};
ghost use Rattle.vq_board_laws.specs.declared.view.Role.TheVariants.{Shelf as ShelfRole};

use std::alloc::{AllocError, Global};
use vq_board::{Board, Pass};
use vq_order::Ordered;
use vq_timeline::LockedTimeline;

/// The timeline of each chain, with the pass of the chain's shelf.
pub(crate) fn timelines_of(
    alloc: Global,
    ordered: &Ordered,
    board: &Board,
    shelves: Vec<Pass>,
) -> Result<Vec<LockedTimeline>, AllocError>
    requires plan { plan_of board.now ≡ ordered.now }
    requires shelves { AreFresh board.now shelves.items
        (map ShelfRole (range_with_len 0 (length ordered.now.chains))) }
    ensures { IfOk result (λ ts. AreOf board.now ts.items) }
{
    let chains = ordered.plan().chains();
    let mut timelines = Vec::with_capacity(alloc, chains as usize)?;
    for (chain, shelf) in (0..chains).zip(shelves) {
        timelines.push(LockedTimeline::new(alloc, ordered, board, chain, shelf)?)?;
    }
    Ok(timelines)
}
