//! Points, and which is ordered directly before which.
ghost use Rattle.std.specs.Prelude.{◌≡◌};
ghost use Rattle.vq_capture.specs.Points.{gives, own_stage, takes};
ghost use Rattle.vq_capture.specs.Releases.{same_queue};
ghost use Rattle.vq_capture.specs.Before.{by_scopes, follows_them, is_cut, is_semaphore_operation};

use crate::masks::{at_stage, earlier, later, meets, uniform};
use vq_capture::capture::Step;
use vq_capture::stage::{Stage, StageMask};
use vq_capture::statement::Statement;

/// The stage of an access as a set.
fn own_stage(stage: Option<Stage>) -> StageMask
    ensures { result ≡ own_stage stage }
{
    match stage {
        Some(stage) => at_stage(stage),
        None => uniform(false),
    }
}

/// What a point takes: the stages whose earlier work on its queue comes before it.
pub fn takes(step: &Step, stage: Option<Stage>) -> StageMask
    ensures { result ≡ takes (record { step = step.now; stage = stage }) }
{
    match &step.statement {
        Statement::CommandAccess { .. } => own_stage(stage),
        Statement::SignalTimeline {
            timeline: _,
            value: _,
            scope,
        } => earlier(&scope.stages),
        Statement::SignalBinary {
            semaphore: _,
            scope,
        } => earlier(&scope.stages),
        Statement::SetEvent { event: _, scope } => earlier(&scope.stages),
        Statement::Barrier { first, second: _ } => earlier(&first.stages),
        Statement::Transition {
            first,
            second: _,
            access: _,
        } => earlier(&first.stages),
        Statement::SignalFence { .. } => uniform(true),
        Statement::WaitIdle { .. } => uniform(true),
        _ => uniform(false),
    }
}

/// What a point gives: the stages whose later work on its queue comes behind it.
pub fn gives(step: &Step, stage: Option<Stage>) -> StageMask
    ensures { result ≡ gives (record { step = step.now; stage = stage }) }
{
    match &step.statement {
        Statement::CommandAccess { .. } => own_stage(stage),
        Statement::Submit { .. } => uniform(true),
        Statement::SubmitHanded { .. } => uniform(true),
        Statement::WaitTimeline {
            timeline: _,
            value: _,
            scope,
        } => later(&scope.stages),
        Statement::WaitBinary {
            semaphore: _,
            scope,
        } => later(&scope.stages),
        Statement::AwaitEvent { event: _, scope } => later(&scope.stages),
        Statement::Barrier { first: _, second } => later(&second.stages),
        Statement::Transition {
            first: _,
            second,
            access: _,
        } => later(&second.stages),
        _ => uniform(false),
    }
}

/// Whether two lines are of one queue.
pub fn same_queue(p: Option<u64>, q: Option<u64>) -> bool
    ensures { result ≡ same_queue p q }
{
    match (p, q) {
        (Some(p), Some(q)) => p == q,
        _ => false,
    }
}

pub fn is_semaphore_operation(said: &Statement) -> bool
    ensures { result ≡ is_semaphore_operation said.now }
{
    match said {
        Statement::Submit { .. } => true,
        Statement::SubmitHanded { .. } => true,
        Statement::WaitTimeline { .. } => true,
        Statement::WaitBinary { .. } => true,
        Statement::SignalTimeline { .. } => true,
        Statement::SignalBinary { .. } => true,
        Statement::SignalFence { .. } => true,
        _ => false,
    }
}

pub fn follows_them(said: &Statement) -> bool
    ensures { result ≡ follows_them said.now }
{
    match said {
        Statement::SignalTimeline { .. } => true,
        Statement::SignalBinary { .. } => true,
        Statement::SignalFence { .. } => true,
        Statement::WaitIdle { .. } => true,
        _ => false,
    }
}

pub fn is_cut(said: &Statement) -> bool
    ensures { result ≡ is_cut said.now }
{
    match said {
        Statement::Cut => true,
        _ => false,
    }
}

/// Whether scopes meet: some stage is in what the first gives and in what the second takes, on one queue.
pub fn by_scopes(x: &Step, x_stage: Option<Stage>, y: &Step, y_stage: Option<Stage>) -> bool
    ensures { result ≡ by_scopes (record { step = x.now; stage = x_stage }) (record { step = y.now; stage = y_stage }) }
{
    same_queue(x.queue, y.queue)
        && !(x_stage.is_some() && y_stage.is_some())
        && meets(&gives(x, x_stage), &takes(y, y_stage))
}
