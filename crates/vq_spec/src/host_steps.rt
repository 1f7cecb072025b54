//! The jobs that host steps are lowered to.
ghost use Rattle.std.specs.Prelude.{◌≡◌, ◌<◌, ◌+◌, ◌^◌, ◌∷◌, [], ℕ, All, IfOk, OnOk, Some};
ghost use Rattle.std.specs.Prelude.{length, map};
ghost use Rattle.std.specs.List.{filter_map, slice_get};
ghost use Rattle.vq_model.specs.Lowering.{asks_any, job_ops, last_before, of_pair, plan_job, step_asked};
ghost use Rattle.vq_model.specs.Lowering.{step_idle, step_needs, step_question};
ghost use Rattle.vq_model.specs.SameScript.{IsRead};
ghost use Rattle.vq_model.specs.declared.script.HostStep.TheVariants.{FencePoll, FenceWait};
ghost use Rattle.vq_model.specs.declared.script.Job.TheVariants.{Host};
ghost use Rattle.vq_model.specs.declared.script.Script.{Script};
ghost use Rattle.vq_spec.specs.Counts.{AreSignals, is_step, last_of_queues, signals_before};
ghost use Rattle.vq_spec.specs.Fences.{AreFences, fence_need};

use crate::edges::push_some;
use crate::fences::FenceState;
use crate::signals::Signals;
use std::alloc::{AllocError, Global};
use vq_model::indices::Indices;
use vq_model::list::List;
use vq_model::plan::{Lane, Need, PlanJob, Question};
use vq_model::script::{HostLine, HostStep, Pair, Script};

/// What a host step asks.
fn question_of(step: &HostStep) -> Question
    ensures { result ≡ step_question step.now }
{
    match step {
        HostStep::WaitAll(_) | HostStep::WaitAny(_) => Question::Reached,
        HostStep::FenceWait(_) | HostStep::Idle => Question::Reached,
        HostStep::PollAll(_) => Question::PollAll,
        HostStep::PollAny(_) => Question::PollAny,
        HostStep::FencePoll(_) => Question::Fence,
        HostStep::Read(timeline) => Question::Value(*timeline),
        HostStep::Signal(_) | HostStep::FenceReset(_) => Question::Silent,
    }
}

/// Whether one of its needs is enough for a host step, where it has two or more.
fn asks_any(step: &HostStep) -> bool
    ensures { result ≡ asks_any step.now }
{
    match step {
        HostStep::WaitAny(pairs) => pairs.as_slice().len() > 1,
        _ => false,
    }
}

/// A need of a host step, which holds back all of it.
fn need(line: u32, chain: u32, value: u64) -> Need
    ensures { result ≡ record { line = line; chain = chain; value = value; from = 1 } }
{
    Need {
        line,
        chain,
        value,
        from: 1,
    }
}

/// The needs of pairs.
fn pair_needs(alloc: Global, line: u32, pairs: &[Pair]) -> Result<List<Need>, AllocError>
    ensures { IfOk result (λ needs. needs ≡ map (of_pair line) pairs.now) }
{
    let mut needs = Vec::with_capacity(alloc, pairs.len())?;
    for pair in pairs {
        needs.push(need(line, pair.semaphore, pair.value))?;
    }
    Ok(List::of(needs))
}

/// One need.
fn one_need(alloc: Global, need: Need) -> Result<List<Need>, AllocError>
    ensures { IfOk result (λ needs. needs ≡ need ∷ []) }
{
    let mut needs = Vec::with_capacity(alloc, 1)?;
    needs.push(need)?;
    Ok(List::of(needs))
}

/// What a wait or a poll of a fence asks for: the signal of the naming that comes after as many
/// effective resets as there were.
fn fence_needs(
    alloc: Global,
    line: u32,
    states: &[FenceState],
    fence: u32,
) -> Result<List<Need>, AllocError>
    requires exists { fence < length states.now }
    requires few { All (λ x. x.resets < 2 ^ 32) states.now }
    ensures { IfOk result (λ needs. needs ≡ fence_need states.now line fence ∷ []) }
{
    let value = states[fence as usize].resets + 1;
    one_need(alloc, need(line, fence, value))
}

/// What a host step waits for.
fn step_needs(
    alloc: Global,
    states: &[FenceState],
    host: &HostLine,
) -> Result<List<Need>, AllocError>
    requires waited { (f : ℕ) → host.now.step ≡ FenceWait f → f < length states.now }
    requires few { All (λ x. x.resets < 2 ^ 32) states.now }
    ensures { (s : Script) → (j : ℕ) → AreFences s j states.now →
        IfOk result (λ needs. needs ≡ step_needs s j host.now.line host.now.step) }
{
    match &host.step {
        HostStep::WaitAll(pairs) => pair_needs(alloc, host.line, pairs.as_slice()),
        HostStep::WaitAny(pairs) => pair_needs(alloc, host.line, pairs.as_slice()),
        HostStep::FenceWait(fence) => fence_needs(alloc, host.line, states, *fence),
        _ => Ok(List::of(Vec::new(alloc))),
    }
}

/// What a host step looks at.
fn step_asked(
    alloc: Global,
    states: &[FenceState],
    host: &HostLine,
) -> Result<List<Need>, AllocError>
    requires polled { (f : ℕ) → host.now.step ≡ FencePoll f → f < length states.now }
    requires few { All (λ x. x.resets < 2 ^ 32) states.now }
    ensures { (s : Script) → (j : ℕ) → AreFences s j states.now →
        IfOk result (λ asked. asked ≡ step_asked s j host.now.line host.now.step) }
{
    match &host.step {
        HostStep::PollAll(pairs) => pair_needs(alloc, host.line, pairs.as_slice()),
        HostStep::PollAny(pairs) => pair_needs(alloc, host.line, pairs.as_slice()),
        HostStep::FencePoll(fence) => fence_needs(alloc, host.line, states, *fence),
        HostStep::Read(timeline) => one_need(alloc, need(host.line, *timeline, 0)),
        _ => Ok(List::of(Vec::new(alloc))),
    }
}

/// The last jobs of the queues that have one.
fn last_jobs(alloc: Global, last: &[Option<u32>]) -> Result<List<u32>, AllocError>
    ensures { IfOk result (λ jobs. jobs ≡ filter_map (λ job. job) last.now) }
{
    let mut jobs = Vec::new(alloc);
    for job in last {
        push_some(&mut jobs, *job)?;
    }
    Ok(List::of(jobs))
}

/// What an idle step waits for: the last job of each queue.
fn step_idle(alloc: Global, last: &[Option<u32>], step: &HostStep) -> Result<List<u32>, AllocError>
    ensures { (s : Script) → (j : ℕ) → last.now ≡ last_of_queues s j →
        IfOk result (λ jobs. jobs ≡ step_idle s j step.now) }
{
    match step {
        HostStep::Idle => last_jobs(alloc, last),
        _ => Ok(List::of(Vec::new(alloc))),
    }
}

/// The job that a host step is lowered to, by what the jobs before it say.
pub(crate) fn step_job(
    alloc: Global,
    states: &[FenceState],
    last: &[Option<u32>],
    previous: Option<u32>,
    host: &HostLine,
    signals: Indices,
) -> Result<PlanJob, AllocError>
    requires waited { (f : ℕ) → host.now.step ≡ FenceWait f → f < length states.now }
    requires polled { (f : ℕ) → host.now.step ≡ FencePoll f → f < length states.now }
    requires few { All (λ x. x.resets < 2 ^ 32) states.now }
    ensures { (s : Script) → (j : ℕ) → AreFences s j states.now → last.now ≡ last_of_queues s j →
        previous ≡ last_before s j is_step → signals ≡ job_ops s j →
        IfOk result (λ job. job ≡ plan_job s (j, Host host.now)) }
{
    let needs = step_needs(alloc, states, host)?;
    let asked = step_asked(alloc, states, host)?;
    let idle_after = step_idle(alloc, last, &host.step)?;
    Ok(PlanJob {
        line: host.line,
        lane: Lane::Host,
        previous,
        host_before: None,
        any: asks_any(&host.step),
        needs,
        asked,
        idle_after,
        commands: Indices::none(),
        signals,
        question: question_of(&host.step),
    })
}

/// Adds the signal of a host step, and gives the job's signals.
pub(crate) fn push_signals(
    signals: &mut Signals,
    script: &Script,
    j: u32,
    host: &HostLine,
) -> Result<Indices, AllocError>
    requires read { IsRead script.now }
    requires at { slice_get script.now.jobs j ≡ Some (Host host.now) }
    requires kept { AreSignals script.now signals.old }
    requires first { length signals.old.ops.items ≡ length (signals_before script.now j) }
    ensures kept { OnOk result (AreSignals script.now signals.new) }
    ensures more { OnOk result (length signals.new.ops.items
        ≡ length (signals_before script.now (j + 1))) }
    ensures own { IfOk result (λ own. own ≡ job_ops script.now j) }
{
    let first = signals.ops.len() as u32;
    signals.push_step(script, j, host)?;
    Ok(Indices::from(first, signals.ops.len() as u32 - first))
}
