//! What a run needs beside its plan, made before it begins.
//!
//! Source: this project's own.
ghost use Rattle.std.specs.Prelude.{◌≡◌, IfOk};
ghost use Rattle.vq_board_run.specs.Crewed.{IsCrewOf};

use crate::lead::{Lead, lead_of};
use crate::room::AccessRoom;
use crate::timelines::timelines_of;
use crate::workers::rooms_of;
use std::alloc::{AllocError, Global};
use vq_actor::Company;
use vq_board::{Board, Passes};
use vq_order::Ordered;
use vq_timeline::LockedTimeline;

/// What a run needs beside its plan: its board, the timeline of each chain, the programs of its actors, the host's room,
/// and the room of each worker, first of the submitting threads of the threaded queues, then of the rings.
#[derive(Drop)]
pub struct Crew {
    pub board: Board,
    pub timelines: Vec<LockedTimeline>,
    pub company: Company,
    pub lead: Lead,
    pub workers: Vec<AccessRoom>,
}

impl Crew {
    /// All parts of a run of the plan. It takes all memory of its turns; the error is that there is none.
    pub fn new(alloc: Global, ordered: &Ordered) -> Result<Crew, AllocError>
        ensures { IfOk result (IsCrewOf ordered.now) }
    {
        let company = Company::new(alloc, ordered)?;
        let (board, passes) = Board::new(alloc, ordered)?;
        let Passes {
            host,
            submits,
            rings,
            shelves,
        } = passes;
        let lead = lead_of(alloc, ordered, &board, &company, host)?;
        let timelines = timelines_of(alloc, ordered, &board, shelves)?;
        let workers = rooms_of(alloc, ordered, &board, &company, submits, rings)?;
        Ok(Crew {
            board,
            timelines,
            company,
            lead,
            workers,
        })
    }
}
