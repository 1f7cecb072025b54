//! How far a slow run has come.
ghost use Rattle.std.specs.Prelude.{◌≡◌, ◌<◌, ◌++◌, ◌∷◌, [], ℕ, List, true, length, All, IfOk};
ghost use Rattle.std.specs.Prelude.{OnOk};
ghost use Rattle.std.specs.List.{list_all};
ghost use Rattle.std.specs.Option.{option_to_list};
ghost use Rattle.vq_model.specs.SlowRun.{is_ready, lowest_ready};
ghost use Rattle.vq_spec.specs.Jobs.{finished_before};
ghost use Rattle.vq_spec.specs.SlowProgress.{lower, is_marked, is_passed, IsLeastOf, HasCome};

use crate::heads::{first_heads, pass_head};
use crate::payloads::{first_payloads, signal_all};
use crate::plan::Plan;
use crate::reached::needs_reached;
use std::alloc::{AllocError, Global};
use vq_model::plan::PlanJob;

/// How far a slow run has come.
#[derive(Drop)]
pub(crate) struct SlowState {
    /// The jobs that are done, in their order.
    pub(crate) order: Vec<u32>,
    /// For each job whether it is done.
    pub(crate) marks: Vec<bool>,
    /// The payload of each chain.
    pub(crate) payloads: Vec<u64>,
    /// For each lane its first job that isn't done, or the number of jobs.
    pub(crate) heads: Vec<u32>,
}

/// Whether a job that may be there is marked.
fn is_marked(marks: &[bool], job: Option<u32>) -> bool
    requires { All (λ j. j < length marks.now) (option_to_list job) }
    ensures { result ≡ list_all (is_marked marks.now) (option_to_list job) }
{
    match job {
        Some(job) => marks[job as usize],
        None => true,
    }
}

/// Whether all of some jobs are marked.
fn are_marked(marks: &[bool], jobs: &[u32]) -> bool
    requires { All (λ j. j < length marks.now) jobs.now }
    ensures { result ≡ list_all (is_marked marks.now) jobs.now }
{
    for job in jobs {
        if !marks[*job as usize] {
            return false;
        }
    }
    true
}

/// Whether all that must be finished before a job is marked.
fn can_follow(marks: &[bool], job: &PlanJob) -> bool
    requires { All (λ j. j < length marks.now) (finished_before job.now) }
    ensures { result ≡ list_all (is_marked marks.now) (finished_before job.now) }
{
    is_marked(marks, job.previous)
        && is_marked(marks, job.host_before)
        && are_marked(marks, job.idle_after.as_slice())
}

/// The lower of a number that may be there and another one.
fn lower(lowest: Option<u32>, other: u32) -> u32
    ensures { result ≡ lower lowest other }
{
    match lowest {
        Some(job) => job.min(other),
        None => other,
    }
}

/// Whether a number that may be there is no greater than another one.
fn is_passed(lowest: Option<u32>, other: u32) -> bool
    ensures { result ≡ is_passed lowest other }
{
    match lowest {
        Some(job) => job <= other,
        None => false,
    }
}

impl SlowState {
    /// Where a slow run begins.
    pub(crate) fn new(alloc: Global, plan: &Plan) -> Result<SlowState, AllocError>
        ensures come { IfOk result (λ s. HasCome plan.now s) }
        ensures empty { IfOk result (λ s. s.order.items ≡ []) }
    {
        let heads = first_heads(alloc, plan)?;
        let payloads = first_payloads(alloc, plan)?;
        Ok(SlowState {
            order: Vec::with_capacity(alloc, plan.jobs() as usize)?,
            marks: vec![in alloc; false; plan.jobs() as usize]?,
            payloads,
            heads,
        })
    }

    /// Whether a job can be done whole.
    fn is_ready(&self, plan: &Plan, j: u32) -> bool
        requires come { HasCome plan.now self.now }
        requires exists { j < length plan.now.jobs }
        ensures { result ≡ is_ready plan.now self.now.order.items j }
    {
        if self.marks[j as usize] {
            return false;
        }
        let job = plan.job(j);
        if !can_follow(self.marks.as_slice(), job) {
            return false;
        }
        needs_reached(self.payloads.as_slice(), job)
    }

    /// Takes one more head into the search for the lowest job that is ready.
    fn with_head(&self, plan: &Plan, lowest: Option<u32>, head: u32) -> Option<u32>
        requires { HasCome plan.now self.now }
        ensures { (heads : List ℕ) →
            IsLeastOf (is_ready plan.now self.now.order.items) (length plan.now.jobs) heads lowest →
            IsLeastOf (is_ready plan.now self.now.order.items) (length plan.now.jobs)
            (heads ++ head ∷ []) result }
    {
        if head >= plan.jobs() {
            return lowest;
        }
        // Most heads are behind the one that is ready.
        if is_passed(lowest, head) {
            return lowest;
        }
        if !self.is_ready(plan, head) {
            return lowest;
        }
        Some(lower(lowest, head))
    }

    /// The lowest job that can be done whole: it is the first of its lane that isn't done.
    pub(crate) fn lowest_ready(&self, plan: &Plan) -> Option<u32>
        requires { HasCome plan.now self.now }
        ensures { result ≡ lowest_ready plan.now self.now.order.items }
    {
        let mut lowest = None;
        for head in self.heads.as_slice() {
            lowest = self.with_head(plan, lowest, *head);
        }
        lowest
    }

    /// Does a job whole: it is marked, its signals are made, and its lane moves on.
    pub(crate) fn finish(&mut self, plan: &Plan, j: u32) -> Result<(), AllocError>
        requires come { HasCome plan.now self.old }
        requires exists { j < length plan.now.jobs }
        requires ready { is_ready plan.now self.old.order.items j ≡ true }
        ensures come { OnOk result (HasCome plan.now self.new) }
        ensures order { OnOk result (self.new.order.items ≡ self.old.order.items ++ j ∷ []) }
    {
        self.order.push(j)?;
        self.marks[j as usize] = true;
        signal_all(&mut self.payloads, plan, j);
        pass_head(&mut self.heads, plan, j);
        Ok(())
    }
}
