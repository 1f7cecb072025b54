//! Signals of one semaphore in no sure order.
ghost use Rattle.std.specs.Prelude.{ℕ, ◌≡◌, ◌<◌, ◌≤◌, ◌+◌, ◌↔◌, ◌⊎◌, [], false, Some};
ghost use Rattle.std.specs.Prelude.{IsTrue, length};
ghost use Rattle.std.specs.List.{slice_get, slice_index_or};
ghost use Rattle.std.specs.Option.{option_map_or};
ghost use Rattle.vq_model.specs.declared.script.SemaphoreKind.TheVariants.{Binary};
ghost use Rattle.vq_model.specs.Checks.{IsUnordered, is_timeline_chain};
ghost use Rattle.vq_model.specs.Context.{is_binary};
ghost use Rattle.vq_model.specs.Plan.{chain, value, line_of_op, needs};
ghost use Rattle.vq_model.specs.Signals.{kind_of};
ghost use Rattle.vq_order.specs.LeastLines.{AreLeastOrNone};
ghost use Rattle.vq_order.specs.UnorderedLines.{IsTooLow, IsUnsureFor, AreUnordered, IsUnorderedNext, IsUnorderedAt};
ghost use Rattle.vq_order.specs.UnorderedLines.{IsUnorderedIn};
ghost use Rattle.vq_order.specs.UnorderedLines.{IsOvertakenBy, IsNextOrNone, IsOvertaken, IsOvertakenIn};
ghost use Rattle.vq_clocks.specs.VectorClocks.{IsComplete};

use crate::lines::{Lines, lower};
use crate::searching::count_first;
use vq_clocks::Clocked;
use vq_model::plan::Need;
use vq_model::script::SemaphoreKind;

/// Whether a chain is that of a timeline.
fn is_timeline(order: &Clocked, t: u32) -> bool
    requires { t < length order.now.chains }
    ensures { result ≡ is_timeline_chain order.now t }
{
    match order.kind(t) {
        SemaphoreKind::Timeline(_) => true,
        _ => false,
    }
}

/// Whether a chain is that of a binary semaphore.
fn is_binary(order: &Clocked, t: u32) -> bool
    requires { t < length order.now.chains }
    ensures value { result ≡ option_map_or is_binary (kind_of order.now.script t) false }
    ensures complete { IsComplete order.now }
{
    match order.kind(t) {
        SemaphoreKind::Binary => true,
        _ => false,
    }
}

/// The line of a signal, twice, if it isn't above the initial value of its timeline.
fn too_low(order: &Clocked, t: u32, op: u32) -> Option<Lines>
    requires chain { t < length order.now.chains }
    requires exists { op < length order.now.ops }
    ensures { AreLeastOrNone (IsTooLow order.now t op) result }
{
    let signal = order.op(op);
    if signal.value <= order.initial(t) {
        Some(Lines {
            first: signal.line,
            second: signal.line,
        })
    } else {
        None
    }
}

/// Whether two signals have equal values, or the first isn't sure for the second's job.
fn are_apart(order: &Clocked, first: u32, second: u32) -> bool
    requires first_exists { first < length order.now.ops }
    requires second_exists { second < length order.now.ops }
    ensures { IsTrue result
        ↔ ((value order.now first ≡ value order.now second) ⊎ IsUnsureFor order.now first second) }
{
    let signal = order.op(second);
    if order.op(first).value == signal.value {
        return true;
    }
    !order.is_sure(first, signal.job)
}

/// The lines of two signals that don't rise in a sure order, the lesser first.
fn unordered_two(order: &Clocked, first: u32, second: u32) -> Option<Lines>
    requires first_exists { first < length order.now.ops }
    requires second_exists { second < length order.now.ops }
    ensures { AreLeastOrNone (AreUnordered order.now first second) result }
{
    if are_apart(order, first, second) {
        let a = order.op(first).line;
        let b = order.op(second).line;
        Some(Lines {
            first: a.min(b),
            second: a.max(b),
        })
    } else {
        None
    }
}

/// The lines of a signal of a chain and the next one, if they don't rise in a sure order.
fn unordered_next(order: &Clocked, t: u32, k: usize) -> Option<Lines>
    requires chain { t < length order.now.chains }
    requires place { k < length (chain order.now t) }
    ensures { AreLeastOrNone (IsUnorderedNext order.now t k) result }
{
    let ops = order.chain(t);
    if k + 1 < ops.len() {
        unordered_two(order, ops[k], ops[k + 1])
    } else {
        None
    }
}

/// The least pair of lines at a place of a timeline's chain.
fn unordered_at(order: &Clocked, t: u32, k: usize) -> Option<Lines>
    requires chain { t < length order.now.chains }
    requires place { k < length (chain order.now t) }
    ensures { AreLeastOrNone (IsUnorderedAt order.now t k) result }
{
    let low = too_low(order, t, order.chain(t)[k]);
    lower(low, unordered_next(order, t, k))
}

/// The least pair of lines in a chain, if it is that of a timeline.
fn unordered_in(order: &Clocked, t: u32) -> Option<Lines>
    requires chain { t < length order.now.chains }
    ensures { AreLeastOrNone (IsUnorderedIn order.now t) result }
{
    if !is_timeline(order, t) {
        return None;
    }
    let mut lowest = None;
    for k in 0..order.chain(t).len() {
        lowest = lower(lowest, unordered_at(order, t, k));
    }
    lowest
}

/// The next signal of a binary semaphore that is written after a line: the signals up to it are the
/// first ones of the chain.
fn next_signal(order: &Clocked, t: u32, line: u32) -> Option<u32>
    requires chain { t < length order.now.chains }
    requires binary { kind_of order.now.script t ≡ Some Binary }
    ensures { IsNextOrNone order.now t line result }
{
    let ops = order.chain(t);
    let count = count_first(
        ops.len(),
        |k|
            requires place { k < length ops.now }
            requires exists { slice_index_or ops.now k 0 < length order.now.ops }
            ensures { IsTrue result
                ↔ (line_of_op order.entry.now (slice_index_or ops.entry.now k 0) ≤ line) }
        { order.op(ops[k]).line <= line },
    );
    ops.get(count).copied()
}

/// The lines of a job's wait and of a signal, if the job is neither that of the signal nor before
/// it.
fn overtaken_by(order: &Clocked, i: u32, line: u32, op: u32) -> Option<Lines>
    requires exists { i < length order.now.jobs }
    requires op_exists { op < length order.now.ops }
    ensures { AreLeastOrNone (IsOvertakenBy order.now i line op) result }
{
    let signal = order.op(op);
    if signal.job == i {
        return None;
    }
    if order.before(i, signal.job) {
        None
    } else {
        Some(Lines {
            first: line,
            second: signal.line,
        })
    }
}

/// The lines of a job's wait of a binary semaphore and of the next signal, if that one might
/// overtake the wait.
fn overtaken(order: &Clocked, i: u32, need: &Need) -> Option<Lines>
    requires exists { i < length order.now.jobs }
    requires chain { need.now.chain < length order.now.chains }
    ensures { AreLeastOrNone (IsOvertaken order.now i need.now) result }
{
    if !is_binary(order, need.chain) {
        return None;
    }
    match next_signal(order, need.chain, need.line) {
        Some(op) => overtaken_by(order, i, need.line, op),
        None => None,
    }
}

/// The least pair of lines of a job's waits that might be overtaken.
fn overtaken_in(order: &Clocked, i: u32) -> Option<Lines>
    requires exists { i < length order.now.jobs }
    ensures { AreLeastOrNone (IsOvertakenIn order.now i) result }
{
    let mut lowest = None;
    for need in order.job(i).needs.as_slice() {
        lowest = lower(lowest, overtaken(order, i, need));
    }
    lowest
}

/// The least pair of lines of signals in no sure order, or none.
pub(crate) fn first_unordered(order: &Clocked) -> Option<Lines>
    ensures { AreLeastOrNone (IsUnordered order.now) result }
{
    let mut lowest = None;
    for t in 0..order.chains() {
        lowest = lower(lowest, unordered_in(order, t));
    }
    for i in 0..order.jobs() {
        lowest = lower(lowest, overtaken_in(order, i));
    }
    lowest
}
