//! Which accesses the scopes of a point have.
//!
//! Source: Vulkan 1.3, "Memory Dependencies".
ghost use Rattle.std.specs.Prelude.{◌≡◌};
ghost use Rattle.vq_capture_memory.specs.Seen.{is_read_in, is_written_in, kinds_of, makes_available, makes_visible};
ghost use Rattle.vq_capture_memory.specs.Seen.{names_stage};
ghost use Rattle.vq_capture.specs.MaskWords.{no_access};

use crate::kinds::{has_read, has_write};
use crate::spot::Spot;
use vq_capture::stage::{AccessMask, Scope, Stage, StageMask};
use vq_capture::statement::Statement;
use vq_capture_touched::masks::has_stage;

fn no_access() -> AccessMask
    ensures { result ≡ no_access }
{
    AccessMask {
        memory_read: false,
        memory_write: false,
        index_read: false,
        attribute_read: false,
        uniform_read: false,
        sampled_read: false,
        storage_read: false,
        storage_write: false,
        attachment_read: false,
    }
}

/// The kinds that an access of a command names.
fn kinds_of(said: &Statement) -> AccessMask
    ensures { result ≡ kinds_of said.now }
{
    match said {
        Statement::CommandAccess { access: _, scope } => scope.accesses,
        _ => no_access(),
    }
}

/// Whether a scope names the stage of an access.
fn names_stage(mask: &StageMask, stage: Option<Stage>) -> bool
    ensures { result ≡ names_stage mask.now stage }
{
    match stage {
        Some(stage) => has_stage(mask, stage),
        None => false,
    }
}

fn is_written_in(scope: &Scope, x: &Spot) -> bool
    ensures { result ≡ is_written_in scope.now x.now.point }
{
    names_stage(&scope.stages, x.stage) && has_write(&scope.accesses, &kinds_of(&x.step.statement))
}

fn is_read_in(scope: &Scope, y: &Spot) -> bool
    ensures { result ≡ is_read_in scope.now y.now.point }
{
    names_stage(&scope.stages, y.stage) && has_read(&scope.accesses, &kinds_of(&y.step.statement))
}

/// Whether the first access scope of a point has a write that is ordered directly before it.
pub fn makes_available(p: &Spot, x: &Spot) -> bool
    ensures { result ≡ makes_available p.now.point x.now.point }
{
    match &p.step.statement {
        Statement::Barrier { first, second: _ } => is_written_in(first, x),
        Statement::Transition {
            first,
            second: _,
            access: _,
        } => is_written_in(first, x),
        Statement::SetEvent { event: _, scope } => is_written_in(scope, x),
        _ => true,
    }
}

/// Whether the second access scope of a point has a read that it is ordered directly before.
pub fn makes_visible(q: &Spot, y: &Spot) -> bool
    ensures { result ≡ makes_visible q.now.point y.now.point }
{
    match &q.step.statement {
        Statement::Barrier { first: _, second } => is_read_in(second, y),
        Statement::Transition {
            first: _,
            second,
            access: _,
        } => is_read_in(second, y),
        Statement::AwaitEvent { event: _, scope } => is_read_in(scope, y),
        _ => true,
    }
}
