//! The table of clocks: a row for each job says what is before it, and then what is sure for it.
ghost use Rattle.std.specs.Prelude.{◌≡◌, ◌<◌, ◌+◌, [], true, length, IfOk, IfSome};
ghost use Rattle.std.specs.List.{slice_index_or};
ghost use Rattle.vq_model.specs.Edges.{AtEnd, must_finish};
ghost use Rattle.vq_ground.specs.Lists.{has};
ghost use Rattle.vq_model.specs.Lanes.{lane_at};
ghost use Rattle.vq_model.specs.SlowRun.{slow_order};
ghost use Rattle.vq_clocks.specs.VectorClocks.{before_half, both, in_row, position, sure_half};
ghost use Rattle.vq_clocks.specs.VectorClocks.{AddsEdge, AddsEdgeOf, AddsJob, AddsOp, EndsOps, HasAdded, HasBoth};
ghost use Rattle.vq_clocks.specs.VectorClocks.{IsClock, IsComplete, IsSureClock, Joins, JoinsBoth, MakesBoth};

use crate::clocks::rows::Row;
use crate::complete_run::CompleteRun;
use std::alloc::{AllocError, Global};
use vq_lists::Rows;

/// A bound on a job's signal operations. Those of later jobs are at or above it.
fn ops_end(run: &CompleteRun, j: u32) -> u32
    requires { j < length run.now.jobs }
    ensures { EndsOps run.now j result }
{
    match run.plan().signals_of(j).last() {
        Some(op) => *op + 1,
        None => 0,
    }
}

/// Raises each number of a row to that of a job's row, and that of the job's lane to just above the job. Where the job is
/// the one that was added last, they are as great already.
#[inline(always)]
fn join_job(run: &CompleteRun, rows: &Rows, row: &mut Row, job: u32, last: Option<u32>)
    requires complete { IsComplete run.now }
    requires exists { job < length run.now.jobs }
    requires made { position run.now job < length rows.now }
    requires from { length (slice_index_or rows.now (position run.now job) []) ≡ both run.now }
    requires width { length row.old ≡ both run.now }
    requires added { IfSome last (HasAdded run.now rows.now row.old) }
    ensures { Joins row.old (slice_index_or rows.now (position run.now job) []) (lane_at run.now job) (job + 1)
        row.new }
{
    if let Some(before) = last {
        if before == job {
            return;
        }
    }
    row.join(rows.row(run.position(job)), run.lane(job), job + 1);
}

/// Adds to a row what comes through a job: what is before it and sure for it, the job itself, and its
/// operations below a bound. A job was added last, or none.
fn add(run: &CompleteRun, rows: &Rows, row: &mut Row, job: u32, bound: u32, last: Option<u32>)
    requires complete { IsComplete run.now }
    requires exists { job < length run.now.jobs }
    requires made { position run.now job < length rows.now }
    requires from { length (slice_index_or rows.now (position run.now job) []) ≡ both run.now }
    requires width { length row.old ≡ both run.now }
    requires added { IfSome last (HasAdded run.now rows.now row.old) }
    ensures joins { JoinsBoth run.now row.old (slice_index_or rows.now (position run.now job) []) job bound row.new }
    ensures added { HasAdded run.now rows.now row.new job }
{
    join_job(run, rows, row, job, last);
    row.raise(run.lanes() + run.lane(job), bound);
}

/// Adds a job that is finished before another one to the other's row.
fn add_first(run: &CompleteRun, rows: &Rows, row: &mut Row, j: u32, first: u32)
    requires makes { MakesBoth run.now rows.now j }
    requires must { has (must_finish run.now j) first ≡ true }
    requires width { length row.old ≡ both run.now }
    ensures before { AddsEdge run.now j first (before_half run.now row.old) (before_half run.now row.new) }
    ensures sure { AddsJob run.now first (sure_half run.now row.old) (sure_half run.now row.new) }
    ensures width { length row.new ≡ both run.now }
{
    let bound = ops_end(run, first);
    add(run, rows, row, first, bound, None);
}

/// Adds an operation that a job waits for to its row, with the operation's job. It gives the job that was added last.
fn add_op(
    run: &CompleteRun,
    rows: &Rows,
    row: &mut Row,
    j: u32,
    op: u32,
    last: Option<u32>,
) -> Option<u32>
    requires makes { MakesBoth run.now rows.now j }
    requires exists { op < length run.now.ops }
    requires width { length row.old ≡ both run.now }
    requires added { IfSome last (HasAdded run.now rows.now row.old) }
    ensures before { AddsEdgeOf run.now j op (before_half run.now row.old) (before_half run.now row.new) }
    ensures sure { AddsOp run.now j op (sure_half run.now row.old) (sure_half run.now row.new) }
    ensures width { length row.new ≡ both run.now }
    ensures added { IfSome result (HasAdded run.now rows.now row.new) }
{
    let job = run.plan().op(op).job;
    if run.comes_earlier(job, j) {
        add(run, rows, row, job, op + 1, last);
        Some(job)
    } else {
        last
    }
}

/// Makes a row that of a job, from those of the jobs before it in the slow run: both clocks in one walk
/// over what the job waits for.
fn make_row(run: &CompleteRun, rows: &Rows, j: u32, row: &mut Row)
    requires makes { MakesBoth run.now rows.now j }
    requires width { length row.old ≡ both run.now }
    ensures before { IsClock run.now j AtEnd (in_row (before_half run.now row.new)) }
    ensures sure { IsSureClock run.now j AtEnd (in_row (sure_half run.now row.new)) }
    ensures width { length row.new ≡ both run.now }
{
    row.clear();
    for first in run.plan().must_finish(j) {
        add_first(run, rows, row, j, *first);
    }
    // Operations that a job waits for are often those of one job.
    let mut last = None;
    for op in run.plan().awaited(j) {
        last = add_op(run, rows, row, j, *op, last);
    }
}

/// The rows of all jobs, in the order of the slow run.
pub(crate) fn clock_table(alloc: Global, run: &CompleteRun) -> Result<Rows, AllocError>
    ensures { IfOk result (λ rows. HasBoth run.now rows (length (slow_order run.now))) }
{
    let (jobs, lanes) = (run.order().len(), run.lanes());
    let numbers = lanes + lanes;
    let mut rows = Rows::with_room(alloc, jobs, jobs.saturating_mul(numbers))?;
    let mut row = Row::new(alloc, numbers)?;
    for j in run.order() {
        make_row(run, &rows, *j, &mut row);
        rows.push(row.as_slice())?;
    }
    Ok(rows)
}
