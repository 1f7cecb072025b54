//! The jobs of each lane, and how far they have come.
ghost use Rattle.std.specs.Prelude.{◌≡◌, ◌<◌, ◌+◌, ◌-◌, ◌^◌, ◌++◌, ◌∷◌, [], length};
ghost use Rattle.std.specs.Prelude.{replicate, IfOk, OnOk};
ghost use Rattle.std.specs.List.{slice_index_or, slice_get};
ghost use Rattle.std.proofs.Math.ListN.{set};
ghost use Rattle.vq_model.specs.Plan.{is_host_lane};
ghost use Rattle.vq_tables.specs.Lanes.{no_lane};

use std::alloc::{AllocError, Global};
use std::marker::Model;
use vq_spec::Lane;

/// Whether a lane is the host's.
pub fn is_host(lane: Lane) -> bool
    ensures { result ≡ is_host_lane lane }
{
    match lane {
        Lane::Host => true,
        Lane::Queue(_) => false,
    }
}

/// Jobs in order.
#[derive(Drop)]
pub struct JobList {
    items: Vec<u32>,
}

impl Model for JobList {
    ghost use Rattle.std.specs.Prelude.{List, ℕ};

    ghost Value = { List ℕ };

    ghost view = { λ a. a.items.items };
}

impl JobList {
    /// No job. It takes no memory.
    fn new(alloc: Global) -> JobList
        ensures { result ≡ [] }
    {
        JobList {
            items: Vec::new(alloc),
        }
    }

    /// The job at a place.
    fn at(&self, place: usize) -> Option<u32>
        ensures { result ≡ slice_get self.now place }
    {
        match self.items.get(place) {
            Some(job) => Some(*job),
            None => None,
        }
    }

    /// One more job.
    fn push(&mut self, job: u32) -> Result<(), AllocError>
        ensures { OnOk result (self.new ≡ self.old ++ job ∷ []) }
    {
        self.items.push(job)?;
        Ok(())
    }
}

/// The jobs of a lane, in order, and how far they have come.
#[derive(Drop)]
pub struct LaneState {
    pub jobs: JobList,
    /// How many of its first jobs are released.
    pub released: usize,
    /// How many of its first jobs are finished.
    pub finished: usize,
    /// How many references its actor holds.
    pub held: usize,
}

/// All lanes by number.
#[derive(Drop)]
pub struct LaneTable {
    lanes: Vec<LaneState>,
}

impl Model for LaneTable {
    ghost use Rattle.std.specs.Prelude.{List};
    ghost use Rattle.vq_tables.specs.declared.lanes.LaneState.{LaneState};

    ghost Value = { List LaneState };

    ghost view = { λ a. a.lanes.items };
}

impl LaneTable {
    /// So many lanes without jobs.
    pub fn empty(alloc: Global, count: usize) -> Result<LaneTable, AllocError>
        ensures { IfOk result (λ lanes. lanes ≡ replicate count no_lane) }
    {
        let mut lanes = Vec::new(alloc);
        while lanes.len() < count {
            lanes.push(LaneState {
                jobs: JobList::new(alloc),
                released: 0,
                finished: 0,
                held: 0,
            })?;
        }
        Ok(LaneTable { lanes })
    }

    /// One more job of a lane.
    pub fn push(&mut self, lane: usize, job: u32) -> Result<(), AllocError>
        requires { lane < length self.old }
        ensures { OnOk result (self.new ≡ set self.old lane (record (slice_index_or self.old lane no_lane)
            { jobs = (slice_index_or self.old lane no_lane).jobs ++ job ∷ [] })) }
    {
        let state = &mut self.lanes[lane];
        state.jobs.push(job)?;
        Ok(())
    }

    /// The first job of a lane that isn't released.
    pub fn next_released(&self, lane: usize) -> Option<u32>
        ensures { result ≡ slice_get (slice_index_or self.now lane no_lane).jobs
            (slice_index_or self.now lane no_lane).released }
    {
        let Some(state) = self.lanes.get(lane) else {
            return None;
        };
        state.jobs.at(state.released)
    }

    /// The first job of a lane that isn't finished.
    pub fn next(&self, lane: usize) -> Option<u32>
        ensures { result ≡ slice_get (slice_index_or self.now lane no_lane).jobs
            (slice_index_or self.now lane no_lane).finished }
    {
        let Some(state) = self.lanes.get(lane) else {
            return None;
        };
        state.jobs.at(state.finished)
    }

    /// How many references a lane's actor holds.
    pub fn held(&self, lane: usize) -> usize
        ensures { result ≡ (slice_index_or self.now lane no_lane).held }
    {
        match self.lanes.get(lane) {
            Some(state) => state.held,
            None => 0,
        }
    }

    /// One more job of a lane is released.
    pub fn release(&mut self, lane: usize)
        requires exists { lane < length self.old }
        requires small { (slice_index_or self.old lane no_lane).released + 1 < 2 ^ 64 }
        ensures { self.new ≡ set self.old lane (record (slice_index_or self.old lane no_lane)
            { released = (slice_index_or self.old lane no_lane).released + 1 }) }
    {
        let state = &mut self.lanes[lane];
        state.released += 1;
    }

    /// One more job of a lane is finished.
    pub fn finish(&mut self, lane: usize)
        requires exists { lane < length self.old }
        requires small { (slice_index_or self.old lane no_lane).finished + 1 < 2 ^ 64 }
        ensures { self.new ≡ set self.old lane (record (slice_index_or self.old lane no_lane)
            { finished = (slice_index_or self.old lane no_lane).finished + 1 }) }
    {
        let state = &mut self.lanes[lane];
        state.finished += 1;
    }

    /// A lane's actor holds one more reference.
    pub fn refer(&mut self, lane: usize)
        requires exists { lane < length self.old }
        requires small { (slice_index_or self.old lane no_lane).held + 1 < 2 ^ 64 }
        ensures { self.new ≡ set self.old lane (record (slice_index_or self.old lane no_lane)
            { held = (slice_index_or self.old lane no_lane).held + 1 }) }
    {
        let state = &mut self.lanes[lane];
        state.held += 1;
    }

    /// A lane's actor holds one reference less.
    pub fn unrefer(&mut self, lane: usize)
        requires exists { lane < length self.old }
        requires some { 0 < (slice_index_or self.old lane no_lane).held }
        ensures { self.new ≡ set self.old lane (record (slice_index_or self.old lane no_lane)
            { held = (slice_index_or self.old lane no_lane).held - 1 }) }
    {
        let state = &mut self.lanes[lane];
        state.held -= 1;
    }
}
