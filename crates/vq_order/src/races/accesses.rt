//! The bytes that commands read and write.
ghost use Rattle.std.specs.Prelude.{◌≡◌, ◌<◌, ◌+◌, ◌^◌, true, false, length, IfOk, option_map};
ghost use Rattle.std.specs.List.{slice_index_or};
ghost use Rattle.std.specs.Option.{option_map_or};
ghost use Rattle.vq_model.specs.LoweredPlans.{IsPlan};
ghost use Rattle.vq_model.specs.Plan.{commands_of};
ghost use Rattle.vq_ground.specs.Lists.{has};
ghost use Rattle.vq_model.specs.FittingCommands.{Fits};
ghost use Rattle.vq_model.specs.Ranges.{read_range, written_range};
ghost use Rattle.vq_order.specs.Accessed.{accesses_conflict, span_of, spans_share, AreAccesses, IsAccess};

use std::alloc::{AllocError, Global};
use vq_clocks::Clocked;
use vq_model::ranges::Range;
use vq_model::script::Command;
use vq_spec::Plan;

/// Bytes of one buffer, from `start` up to `end`.
#[derive(Clone, Copy)]
pub(crate) struct Span {
    pub(crate) buffer: u32,
    pub(crate) start: u32,
    pub(crate) end: u32,
}

/// A command with its job.
#[derive(Clone, Copy)]
pub(crate) struct Visitor {
    pub(crate) job: u32,
    pub(crate) command: u32,
}

/// What a command writes, and what it reads.
#[derive(Clone, Copy)]
pub(crate) struct MemoryAccess {
    pub(crate) by: Visitor,
    pub(crate) written: Span,
    pub(crate) read: Option<Span>,
}

/// Whether two ranges have a byte in common.
fn share(a: Span, b: Span) -> bool
    ensures { result ≡ spans_share a b }
{
    a.buffer == b.buffer && a.start.max(b.start) < a.end.min(b.end)
}

/// Whether a range has a byte in common with another one, if there is another one.
fn share_some(a: Span, b: Option<Span>) -> bool
    ensures { result ≡ option_map_or (spans_share a) b false }
{
    match b {
        Some(b) => share(a, b),
        None => false,
    }
}

/// Whether one command writes a byte that the other one reads or writes.
pub(crate) fn conflict(a: &MemoryAccess, b: &MemoryAccess) -> bool
    ensures { result ≡ accesses_conflict a.now b.now }
{
    share(a.written, b.written) || share_some(a.written, b.read) || share_some(b.written, a.read)
}

/// How many bytes a buffer has.
fn buffer_size(plan: &Plan, buffer: u32) -> u32
    requires { buffer < length plan.now.sizes }
    ensures { result ≡ slice_index_or plan.now.sizes buffer 0 }
{
    plan.script().buffers.as_slice()[buffer as usize].size
}

/// A range by its ends.
fn span_of(range: Range) -> Span
    requires { range.start + range.size < 2 ^ 32 }
    ensures { result ≡ span_of range }
{
    Span {
        buffer: range.buffer,
        start: range.start,
        end: range.start + range.size as u32,
    }
}

/// What a command writes.
fn written_span(plan: &Plan, command: &Command) -> Span
    requires plan { IsPlan plan.now }
    requires fits { Fits plan.now.sizes command.now }
    ensures { result ≡ span_of (written_range plan.now.sizes command.now) }
{
    let size = buffer_size(plan, command.target());
    span_of(command.written(size as usize))
}

/// What a command reads.
fn read_span(plan: &Plan, command: &Command) -> Option<Span>
    requires plan { IsPlan plan.now }
    requires fits { Fits plan.now.sizes command.now }
    ensures { result ≡ option_map span_of (read_range command.now) }
{
    Some(span_of(command.read()?))
}

/// What a command of this job reads and writes.
#[inline(always)]
pub(crate) fn access_of(plan: &Plan, c: u32, job: u32) -> MemoryAccess
    requires plan { IsPlan plan.now }
    requires own { has (commands_of plan.now job) c ≡ true }
    ensures { IsAccess plan.now c result }
{
    let command = &plan.command(c).command;
    MemoryAccess {
        by: Visitor { job, command: c },
        written: written_span(plan, command),
        read: read_span(plan, command),
    }
}

/// What a command reads and writes.
#[inline(always)]
pub(crate) fn command_access(order: &Clocked, c: u32) -> MemoryAccess
    requires { c < length order.now.commands }
    ensures { IsAccess order.now c result }
{
    access_of(order.plan(), c, order.owner(c))
}

/// What all commands read and write.
pub(crate) fn all_accesses(alloc: Global, order: &Clocked) -> Result<Vec<MemoryAccess>, AllocError>
    ensures accesses { IfOk result (λ accesses. AreAccesses order.now accesses.items) }
    ensures all { IfOk result (λ accesses. length accesses.items ≡ length order.now.commands) }
{
    let count = order.plan().commands();
    let mut accesses = Vec::with_capacity(alloc, count as usize)?;
    for c in 0..count {
        accesses.push(command_access(order, c))?;
    }
    Ok(accesses)
}
