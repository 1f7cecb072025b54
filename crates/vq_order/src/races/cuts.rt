//! Cuts: buffers are cut into cells where the ranges of commands begin.
ghost use Rattle.std.specs.Prelude.{◌≡◌, ◌<◌, ◌≤◌, ◌++◌, ℕ, length, OnOk, IfOk};
ghost use Rattle.std.specs.List.{slice_index_or};
ghost use Rattle.std.specs.List.Sorted.{IsNonDecreasing};
ghost use Rattle.vq_order.specs.CellRanges.{axis, begins_first, later_start, later_starts, start_of};
ghost use Rattle.vq_order.specs.CellRanges.{AreFirstCells, HasBuffers, IsFirstFrom, IsReach};
ghost use Rattle.vq_order.specs.CommandCells.{AreCuts};

use crate::races::accesses::{MemoryAccess, Span, command_access};
use std::alloc::{AllocError, Global};
use vq_clocks::Clocked;

/// Cells, from the first one up to an end.
#[derive(Clone, Copy)]
pub(crate) struct Reach {
    pub(crate) first: usize,
    pub(crate) end: usize,
}

/// A byte of a buffer as one number.
fn on_axis(buffer: u32, offset: u32) -> u64
    ensures { result ≡ axis buffer offset }
{
    u64::from(buffer) * 4294967296 + u64::from(offset)
}

/// Whether a range begins where one of the first buffers does.
fn begins_first(span: Span, buffers: u32) -> bool
    ensures { result ≡ begins_first span buffers }
{
    span.start == 0 && span.buffer < buffers
}

/// Adds where a range begins, unless one of the first buffers does there.
fn push_start(cuts: &mut Vec<u64>, span: Span, buffers: u32) -> Result<(), AllocError>
    ensures { OnOk result (cuts.new.items ≡ cuts.old.items ++ later_start buffers span) }
{
    if begins_first(span, buffers) {
        return Ok(());
    }
    cuts.push(on_axis(span.buffer, span.start))?;
    Ok(())
}

/// Adds where the ranges of a command begin, except where one of the first buffers does.
fn push_starts(cuts: &mut Vec<u64>, access: &MemoryAccess, buffers: u32) -> Result<(), AllocError>
    ensures { OnOk result (cuts.new.items ≡ cuts.old.items ++ later_starts buffers access.now) }
{
    push_start(cuts, access.written, buffers)?;
    if let Some(read) = access.read {
        push_start(cuts, read, buffers)?;
    }
    Ok(())
}

/// How many buffers there are, or only as many as commands.
pub(crate) fn first_buffers(order: &Clocked) -> u32 {
    let buffers = order.plan().script().buffers.as_slice().len();
    let commands = order.plan().commands();
    if buffers < commands as usize {
        buffers as u32
    } else {
        commands
    }
}

/// Where the first buffers begin.
fn buffer_starts(alloc: Global, buffers: u32) -> Result<Vec<u64>, AllocError>
    ensures { IfOk result (λ starts. HasBuffers buffers starts.items) }
{
    let mut starts = Vec::with_capacity(alloc, buffers as usize)?;
    for buffer in 0..buffers {
        starts.push(on_axis(buffer, 0))?;
    }
    Ok(starts)
}

/// Where the ranges of all commands begin, each place once, in order. Many ranges begin where their
/// buffer does: so many of the first buffers are cut there beforehand.
pub(crate) fn make_cuts(
    alloc: Global,
    order: &Clocked,
    buffers: u32,
) -> Result<Vec<u64>, AllocError>
    ensures { IfOk result (λ cuts. AreCuts order.now cuts.items) }
{
    let mut cuts = buffer_starts(alloc, buffers)?;
    for c in 0..order.plan().commands() {
        push_starts(&mut cuts, &command_access(order, c), buffers)?;
    }
    cuts.sort_unstable();
    cuts.dedup();
    Ok(cuts)
}

/// How many cuts are below a place.
fn cuts_below(cuts: &[u64], place: u64) -> usize
    requires { IsNonDecreasing cuts.now }
    ensures { IsFirstFrom cuts.now place result }
{
    cuts.partition_point(|cut| *cut < place)
}

/// The first cell of each of the first buffers.
pub(crate) fn first_cells(
    alloc: Global,
    cuts: &[u64],
    buffers: u32,
) -> Result<Vec<usize>, AllocError>
    requires { IsNonDecreasing cuts.now }
    ensures { IfOk result (λ firsts. AreFirstCells cuts.now firsts.items) }
{
    let mut firsts = Vec::with_capacity(alloc, buffers as usize)?;
    for buffer in 0..buffers {
        firsts.push(cuts_below(cuts, on_axis(buffer, 0)))?;
    }
    Ok(firsts)
}

/// The first cell that doesn't begin before a range does. Many ranges begin where their buffer does,
/// and there it is known.
fn first_cell(cuts: &[u64], firsts: &[usize], span: Span) -> usize
    requires rise { IsNonDecreasing cuts.now }
    requires firsts { AreFirstCells cuts.now firsts.now }
    ensures { IsFirstFrom cuts.now (start_of span) result }
{
    if span.start == 0 {
        if let Some(first) = firsts.get(span.buffer as usize) {
            return *first;
        }
    }
    cuts_below(cuts, on_axis(span.buffer, span.start))
}

/// The first cut from one of them on that isn't below a place. Most ranges have few cells, so the
/// cuts are gone through one by one.
fn end_from(cuts: &[u64], first: usize, place: u64) -> usize
    requires { IsNonDecreasing cuts.now }
    ensures within { result ≤ length cuts.now }
    ensures above { (k : ℕ) → result ≤ k → k < length cuts.now →
        place ≤ slice_index_or cuts.now k 0 }
{
    for end in first..cuts.len() {
        if place <= cuts[end] {
            return end;
        }
    }
    cuts.len()
}

/// The cells of a range, where the first ones of the first buffers are known.
pub(crate) fn reach_of(cuts: &[u64], firsts: &[usize], span: Span) -> Reach
    requires rise { IsNonDecreasing cuts.now }
    requires firsts { AreFirstCells cuts.now firsts.now }
    ensures { IsReach cuts.now span result }
{
    let first = first_cell(cuts, firsts, span);
    Reach {
        first,
        end: end_from(cuts, first, on_axis(span.buffer, span.end)),
    }
}

/// How many cells a range has. It is for ranges that may have many, so their end is looked for by
/// halves.
pub(crate) fn count_cells(cuts: &[u64], firsts: &[usize], span: Span) -> usize
    requires rise { IsNonDecreasing cuts.now }
    requires firsts { AreFirstCells cuts.now firsts.now }
{
    let end = cuts_below(cuts, on_axis(span.buffer, span.end));
    end.saturating_sub(first_cell(cuts, firsts, span))
}
