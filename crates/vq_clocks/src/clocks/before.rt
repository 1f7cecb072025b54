//! Rows of the jobs that are before a place of a job, through some edges.
ghost use Rattle.std.specs.Prelude.{◌≡◌, ◌<◌, length, replicate};
ghost use Rattle.vq_model.specs.Lanes.{lane_at};
ghost use Rattle.vq_clocks.specs.VectorClocks.{before_halves, in_row, itself, lanes, AddsEdge, AllBelow, Covers};
ghost use Rattle.vq_clocks.specs.VectorClocks.{MakesClock, PassesOne};

use crate::clocks::rows::Row;
use crate::complete_run::CompleteRun;
use vq_lists::Rows;

/// Adds an edge to a job to its row.
fn add_edge(row: &mut Row, run: &CompleteRun, rows: &Rows, j: u32, edge: u32)
    requires makes { MakesClock run.now (before_halves run.now rows.now) j }
    requires exists { edge < length run.now.jobs }
    requires width { length row.old ≡ lanes run.now }
    ensures adds { AddsEdge run.now j edge row.old row.new }
    ensures width { length row.new ≡ lanes run.now }
{
    if run.comes_earlier(edge, j) {
        let clocks = rows.row(run.position(edge));
        row.join(&clocks[..run.lanes()], run.lane(edge), edge + 1);
    }
}

/// Makes a row of zeros that of what comes before a job through these edges, from the rows of their
/// jobs.
pub(crate) fn row_through(run: &CompleteRun, rows: &Rows, j: u32, edges: &[u32], row: &mut Row)
    requires makes { MakesClock run.now (before_halves run.now rows.now) j }
    requires exist { AllBelow (length run.now.jobs) edges.now }
    requires zeros { row.old ≡ replicate (lanes run.now) 0 }
    ensures value { Covers (lane_at run.now) itself (in_row row.new) (PassesOne run.now j edges.now) }
    ensures width { length row.new ≡ lanes run.now }
{
    for edge in edges {
        add_edge(row, run, rows, j, *edge);
    }
}
