//! Plans of which the slow run leaves no job.
ghost use Rattle.std.specs.Prelude.{◌≡◌, ◌<◌, ◌^◌, length, IfOk};
ghost use Rattle.vq_model.specs.HappensBefore.{comes_earlier};
ghost use Rattle.vq_model.specs.Lanes.{lane_at};
ghost use Rattle.vq_model.specs.SlowRun.{slow_order};
ghost use Rattle.vq_clocks.specs.VectorClocks.{position, lanes, HasPositions, IsComplete};

use std::alloc::{AllocError, Global};
use std::marker::Model;
use vq_model::list::List;
use vq_spec::Plan;

/// A plan of which the slow run leaves no job, with that run: its jobs in their order, and where
/// each job stands.
pub(crate) struct CompleteRun {
    plan: Plan,
    order: List<u32>,
    positions: Vec<u32>,
}

impl Drop for CompleteRun {
    fn drop(self) {
        let CompleteRun {
            plan: _plan,
            order: _order,
            positions: _positions,
        } = self;
    }
}

impl Model for CompleteRun {
    ghost use Rattle.vq_model.specs.Plan.{Plan as Lowered};
    ghost use Rattle.vq_clocks.specs.VectorClocks.{KeepsRun};

    ghost Value = { Lowered };

    ghost view = { λ a. a.plan };

    ghost invariant = { λ a. KeepsRun a.plan a.order a.positions.items };
}

impl CompleteRun {
    /// A plan with the order of its slow run, which leaves no job. The error is want of memory.
    pub(crate) fn new(
        alloc: Global,
        plan: Plan,
        order: List<u32>,
    ) -> Result<CompleteRun, AllocError>
        requires complete { IsComplete plan }
        requires order { order ≡ slow_order plan }
        ensures { IfOk result (λ complete. complete ≡ plan) }
    {
        let positions = positions(alloc, &plan, order.as_slice())?;
        Ok(CompleteRun {
            plan,
            order,
            positions,
        })
    }

    /// The plan.
    pub(crate) fn plan(&self) -> &Plan
        ensures value { result.now ≡ self.now }
        ensures complete { IsComplete self.now }
    {
        &self.plan
    }

    /// The jobs in the order of the slow run.
    pub(crate) fn order(&self) -> &[u32]
        ensures value { result.now ≡ slow_order self.now }
        ensures complete { IsComplete self.now }
    {
        self.order.as_slice()
    }

    /// Where a job stands in the slow run.
    pub(crate) fn position(&self, j: u32) -> usize
        requires { j < length self.now.jobs }
        ensures { result ≡ position self.now j }
    {
        self.positions[j as usize] as usize
    }

    /// Whether one job stands earlier in the slow run than another.
    pub(crate) fn comes_earlier(&self, i: u32, j: u32) -> bool
        requires first { i < length self.now.jobs }
        requires second { j < length self.now.jobs }
        ensures { result ≡ comes_earlier self.now i j }
    {
        self.position(i) < self.position(j)
    }

    /// How many lanes there are: the host's lane, and those of the queues.
    pub(crate) fn lanes(&self) -> usize
        ensures value { result ≡ lanes self.now }
        ensures few { lanes self.now < 2 ^ 32 }
    {
        self.plan().script().queues.as_slice().len() + 1
    }

    /// A job's lane by number: the host's lane, then those of the queues.
    pub(crate) fn lane(&self, j: u32) -> usize
        requires { j < length self.now.jobs }
        ensures value { result ≡ lane_at self.now j }
        ensures exists { result < lanes self.now }
    {
        self.plan().job(j).lane.number()
    }
}

/// Where each job stands in the slow run.
fn positions(alloc: Global, plan: &Plan, order: &[u32]) -> Result<Vec<u32>, AllocError>
    requires complete { IsComplete plan.now }
    requires order { order.now ≡ slow_order plan.now }
    ensures { IfOk result (λ positions. HasPositions plan.now positions.items) }
{
    let mut positions = vec![in alloc; 0; plan.jobs() as usize]?;
    for (place, j) in order.iter().enumerate() {
        positions[*j as usize] = place as u32;
    }
    Ok(positions)
}
