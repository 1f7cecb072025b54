//! Clocks of the parts of a job. Where waits hold back only a part of a batch, they cut it in parts: in each
//! of them all places have the same needs.
ghost use Rattle.std.specs.Prelude.{◌≡◌, ◌<◌, ◌≤◌, ◌++◌, ◌∷◌, [], ℕ, length, suc, true, IfOk, IsTrue, OnOk};
ghost use Rattle.std.specs.List.{slice_index_or};
ghost use Rattle.std.specs.List.Sorted.{IsNonDecreasing};
ghost use Rattle.vq_model.specs.Edges.{At, edges_at};
ghost use Rattle.vq_model.specs.EdgeReasons.{waits_at_start};
ghost use Rattle.vq_model.specs.LoweredPlans.{IsPlan};
ghost use Rattle.vq_model.specs.SlowRun.{slow_order};
ghost use Rattle.vq_clocks.specs.PartClocks.{end_before, jobs_for, AreParts, HaveParts, IsPartEnds};
ghost use Rattle.vq_clocks.specs.VectorClocks.{before_halves, in_row, lanes, HasClocks, IsClock, MakesClock};

use crate::clocks::before::row_through;
use crate::clocks::rows::Row;
use crate::complete_run::CompleteRun;
use std::alloc::{AllocError, Global};
use vq_lists::Rows;
use vq_model::plan::Need;
use vq_spec::Plan;

/// The clocks of a job's parts but the last, which has the clock of the job's end.
#[derive(Drop)]
pub(crate) struct Parts {
    /// The last place of each of these parts, in order.
    pub(crate) ends: Vec<u32>,
    /// The row of each of them.
    pub(crate) rows: Rows,
}

/// How many parts end before a command, with so many commands of the job ahead of it.
pub(crate) fn ends_before(ends: &[u32], ahead: u32) -> usize
    requires { IsNonDecreasing ends.now }
    ensures within { result ≤ length ends.now }
    ensures below { (k : ℕ) → k < result → slice_index_or ends.now k 0 ≤ ahead }
    ensures above { (k : ℕ) → result ≤ k → k < length ends.now →
        ahead < slice_index_or ends.now k 0 }
{
    ends.partition_point(|end| *end <= ahead)
}

/// Whether all needs of a job hold back its start.
fn waits_at_start(plan: &Plan, j: u32) -> bool
    requires { j < length plan.now.jobs }
    ensures { IsTrue result → waits_at_start plan.now j ≡ true }
{
    for need in plan.job(j).needs.as_slice() {
        if need.from != 1 {
            return false;
        }
    }
    true
}

/// Whether all needs of each job hold back its start.
fn all_wait_at_start(plan: &Plan) -> bool
    ensures { IsTrue result → (j : ℕ) → waits_at_start plan.now j ≡ true }
{
    for j in 0..plan.jobs() {
        if !waits_at_start(plan, j) {
            return false;
        }
    }
    true
}

/// Adds the place before one from which a wait holds back commands, unless that is the first one.
fn push_end(ends: &mut Vec<u32>, from: u32) -> Result<(), AllocError>
    ensures { OnOk result (ends.new.items ≡ ends.old.items ++ end_before from) }
{
    if from > 1 {
        ends.push(from - 1)?;
    }
    Ok(())
}

/// The places just before those that held waits of a job hold back, in order, each once.
fn part_ends(alloc: Global, plan: &Plan, j: u32) -> Result<Vec<u32>, AllocError>
    requires { j < length plan.now.jobs }
    ensures { IfOk result (λ ends. IsPartEnds plan.now j ends.items) }
{
    let mut ends = Vec::new(alloc);
    for need in plan.job(j).needs.as_slice() {
        push_end(&mut ends, need.from)?;
    }
    ends.sort_unstable();
    ends.dedup();
    Ok(ends)
}

/// Adds the job of the signal that resolves a need, where the need holds back a place and is above
/// the initial value.
fn push_resolving(
    edges: &mut Vec<u32>,
    plan: &Plan,
    need: &Need,
    place: u32,
) -> Result<(), AllocError>
    requires plan { IsPlan plan.now }
    requires chain { need.now.chain < length plan.now.chains }
    ensures { OnOk result (edges.new.items
        ≡ edges.old.items ++ jobs_for plan.now place (need.now ∷ [])) }
{
    if need.from > place {
        return Ok(());
    }
    if need.value <= plan.initial(need.chain) {
        return Ok(());
    }
    let Some(op) = plan.resolver(need.chain, need.value) else {
        return Ok(());
    };
    edges.push(plan.op(op).job)?;
    Ok(())
}

/// The jobs with an edge to a place of a job.
fn edges_at(alloc: Global, plan: &Plan, j: u32, place: u32) -> Result<Vec<u32>, AllocError>
    requires plan { IsPlan plan.now }
    requires exists { j < length plan.now.jobs }
    ensures { IfOk result (λ edges. edges.items ≡ edges_at plan.now j (At place)) }
{
    let mut edges = Vec::from_slice(alloc, plan.must_finish(j))?;
    let job = plan.job(j);
    if job.any {
        return Ok(edges);
    }
    for need in job.needs.as_slice() {
        push_resolving(&mut edges, plan, need, place)?;
    }
    Ok(edges)
}

/// The row of a place of a job, from those of the jobs before it in the slow run.
fn place_row(
    alloc: Global,
    run: &CompleteRun,
    rows: &Rows,
    j: u32,
    place: u32,
) -> Result<Row, AllocError>
    requires { MakesClock run.now (before_halves run.now rows.now) j }
    ensures value { IfOk result (λ row. IsClock run.now j (At place) (in_row row)) }
    ensures width { IfOk result (λ row. length row ≡ lanes run.now) }
{
    let edges = edges_at(alloc, run.plan(), j, place)?;
    let mut row = Row::new(alloc, run.lanes())?;
    row_through(run, rows, j, edges.as_slice(), &mut row);
    Ok(row)
}

/// The clocks of a job's parts.
fn parts_of(alloc: Global, run: &CompleteRun, rows: &Rows, j: u32) -> Result<Parts, AllocError>
    requires { MakesClock run.now (before_halves run.now rows.now) j }
    ensures { IfOk result (AreParts run.now j) }
{
    let ends = part_ends(alloc, run.plan(), j)?;
    let mut of_parts = Rows::new(alloc);
    for end in ends.as_slice() {
        let row = place_row(alloc, run, rows, j, *end)?;
        of_parts.push(row.as_slice())?;
    }
    Ok(Parts {
        ends,
        rows: of_parts,
    })
}

/// The clocks of the parts of each job, from the rows of all jobs; of no job where no wait is held.
pub(crate) fn all_parts(
    alloc: Global,
    run: &CompleteRun,
    rows: &Rows,
) -> Result<Vec<Parts>, AllocError>
    requires { HasClocks run.now (before_halves run.now rows.now) (length (slow_order run.now)) }
    ensures { IfOk result (λ parts. HaveParts run.now parts.items) }
{
    let mut parts = Vec::new(alloc);
    if all_wait_at_start(run.plan()) {
        return Ok(parts);
    }
    for j in 0..run.plan().jobs() {
        parts.push(parts_of(alloc, run, rows, j)?)?;
    }
    Ok(parts)
}
