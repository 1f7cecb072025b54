//! What a run needs beside its plan, made before it begins.
//!
//! Source: this project's own.
ghost use Rattle.std.specs.Prelude.{◌≡◌, IfOk};
ghost use Rattle.vq_rings.specs.Openings.{AreParts};

use crate::bells::Bells;
use crate::berth::Berth;
use crate::berths::berths_of;
use crate::progress::{Progress, all_progress};
use std::alloc::{AllocError, Global};
use vq_actor::Company;
use vq_board::Board;
use vq_board_run::{Crew, Lead};
use vq_order::Ordered;
use vq_timeline::LockedTimeline;

/// What a run needs beside its plan.
#[derive(Drop)]
pub(crate) struct Parts {
    pub(crate) board: Board,
    pub(crate) timelines: Vec<LockedTimeline>,
    pub(crate) company: Company,
    pub(crate) lead: Lead,
    pub(crate) berths: Vec<Berth>,
    // of each berth's actor
    pub(crate) progress: Vec<Progress>,
    pub(crate) bells: Bells,
}

/// All parts of a run of the plan. The error is want of memory.
pub(crate) fn parts_of(alloc: Global, ordered: &Ordered) -> Result<Parts, AllocError>
    ensures { IfOk result (AreParts ordered.now) }
{
    let Crew {
        board,
        timelines,
        company,
        lead,
        workers,
    } = Crew::new(alloc, ordered)?;
    let berths = berths_of(alloc, &board, workers)?;
    let progress = all_progress(alloc, berths.len())?;
    let bells = Bells::new(alloc)?;
    Ok(Parts {
        board,
        timelines,
        company,
        lead,
        berths,
        progress,
        bells,
    })
}
