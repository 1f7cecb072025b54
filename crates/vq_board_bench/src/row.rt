//! A plan of batches in a row on one queue, the first of which have a command and a signal each.
ghost use Rattle.std.specs.Prelude.{◌≡◌, ℕ, ◌+◌, ◌<◌, ◌≤◌, ◌∷◌, [], length, true, Some};
ghost use Rattle.std.specs.List.{slice_get};
ghost use Rattle.vq_model.specs.LoweredPlans.{IsPlan};
ghost use Rattle.vq_model.specs.Plan.{chain};
ghost use Rattle.vq_board_bench.specs.Making.{HasShare};
ghost use Rattle.vq_board_bench.specs.Rows.{IsOneOfFirst, IsLink, IsLinked, IsRow};

use crate::kind::Form;
use std::alloc::{AllocError, Global};
use vq_board_stage::three_signals::{is_batch, is_signal};
use vq_spec::{Plan, PlanJob};

/// Adds a batch on the first queue.
fn push_batch(alloc: Global, text: &mut String, form: Form, value: u64) -> Result<(), AllocError> {
    text.push_str("submit P\n")?;
    if form.command {
        text.push_str("fill X 0 4 7\n")?;
    }
    if form.signal {
        text.push_str(format!(in alloc; "signal A {value}\n")?.as_str())?;
    }
    text.push_str("end\n")
}

/// The script of so many batches on the first of two queues.
pub(crate) fn row_text(alloc: Global, batches: u32, form: Form) -> Result<String, AllocError> {
    let mut text = String::from_str(
        alloc,
        "buffer X 8\ntimeline A 0\nqueue P immediate\nqueue Q immediate\n",
    )?;
    for j in 0..batches {
        push_batch(alloc, &mut text, form, u64::from(j) + 1)?;
    }
    Ok(text)
}

/// A number alone where it is one of the first so many, and else nothing.
fn one_of_first(own: &[u32], count: u32, j: u32) -> &[u32]
    requires { own.now ≡ j ∷ [] }
    ensures { IsOneOfFirst result.now count j }
{
    if j < count { own } else { &own[..0] }
}

/// Whether there is no job before a job, or the one with the number before it.
fn is_next(previous: Option<u32>, j: u32) -> bool
    ensures { result ≡ true → (i : ℕ) → previous ≡ Some i → i + 1 ≡ j }
{
    match previous {
        Some(i) => j != 0 && i == j - 1,
        None => true,
    }
}

/// Whether a job is a batch of the first queue behind the one before it, with a command where it is
/// one of the first so many, and a signal likewise.
fn is_link(job: &PlanJob, commands: u32, signals: u32, j: u32) -> bool
    ensures { result ≡ true → IsLink job.now commands signals j }
{
    let own = [j];
    is_batch(
        job,
        0,
        one_of_first(&own, commands, j),
        one_of_first(&own, signals, j),
    ) && job.needs.len() == 0
        && is_next(job.previous, j)
}

/// Whether so is this job of a plan, with the host to release it and the first chain for its signal.
fn is_linked(plan: &Plan, commands: u32, signals: u32, j: u32) -> bool
    requires exists { j < length plan.now.jobs }
    requires ops { signals ≤ length plan.now.ops }
    ensures { result ≡ true → IsLinked plan.now commands signals j }
{
    if j < signals && !is_signal(plan, j, 0, j) {
        return false;
    }
    !plan.script().is_threaded(0) && is_link(plan.job(j), commands, signals, j)
}

/// Whether each number of a list is that of its place.
fn is_rising(list: &[u32]) -> bool
    ensures { result ≡ true → (i e : ℕ) → slice_get list.now i ≡ Some e → e ≡ i }
{
    for i in 0..list.len() {
        if list[i] as usize != i {
            return false;
        }
    }
    true
}

/// Whether so are all chains of a plan.
fn are_rising(plan: &Plan) -> bool
    ensures { result ≡ true → (t i e : ℕ) → slice_get (chain plan.now t) i ≡ Some e → e ≡ i }
{
    for t in 0..plan.chains() {
        if !is_rising(plan.chain(t)) {
            return false;
        }
    }
    true
}

/// Whether the shelf of the first chain may make so many points.
pub(crate) fn has_share(plan: &Plan, count: u32) -> bool
    requires { IsPlan plan.now }
    ensures { result ≡ true → HasShare plan.now 0 count }
{
    plan.chains() != 0 && plan.chain(0).len() >= count as usize
}

/// Whether the jobs of a plan are in a row, the first so many of them with a command, and with a signal.
pub(crate) fn is_row(plan: &Plan, commands: u32, signals: u32) -> bool
    requires { IsPlan plan.now }
    ensures { result ≡ true → IsRow plan.now (length plan.now.jobs) commands signals }
{
    if commands > plan.commands() || signals > plan.ops() || signals > plan.jobs() {
        return false;
    }
    if !has_share(plan, signals) {
        return false;
    }
    for j in 0..plan.jobs() {
        if !is_linked(plan, commands, signals, j) {
            return false;
        }
    }
    are_rising(plan)
}
