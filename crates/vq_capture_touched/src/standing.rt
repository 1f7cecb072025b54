//! Accesses that stand for others above them: what races with those races with these, too.
ghost use Rattle.std.specs.Prelude.{◌≡◌, ◌+◌, ◌&&◌, true, not};
ghost use Rattle.std.specs.List.{list_all, list_any};
ghost use Rattle.vq_capture.specs.Masks.{has_stage};
ghost use Rattle.vq_capture.specs.Before.{same_thread};
ghost use Rattle.vq_capture_touched.specs.Standing.{at_stages_of, covers, has_points, includes, is_behind, points_in};
ghost use Rattle.vq_capture_touched.specs.Standing.{stands_for};

use crate::conflicts::{access_of, conflict, is_write};
use crate::joins::same_queue;
use crate::masks::has_stage;
use vq_capture::capture::Step;
use vq_capture::stage::{Stage, StageMask};
use vq_capture::statement::{Access, Range, Statement};

/// The stages that have a word.
pub const WORD_STAGES: [Stage; 11] = [
    Stage::Indirect,
    Stage::Input,
    Stage::Vertex,
    Stage::Early,
    Stage::Fragment,
    Stage::Late,
    Stage::Color,
    Stage::Compute,
    Stage::Copy,
    Stage::Host,
    Stage::Other,
];

/// The end of a range.
fn range_end(range: Range) -> u128
    ensures { result ≡ range.offset + range.length }
{
    u128::from(range.offset) + u128::from(range.length)
}

/// Whether an access has all units of another, and writes them if that does.
fn covers(w: Option<Access>, a: Option<Access>) -> bool
    ensures { result ≡ covers w a }
{
    let Some(w) = w else {
        return false;
    };
    let Some(a) = a else {
        return false;
    };
    w.resource == a.resource
        && (is_write(w.kind) || !is_write(a.kind))
        && w.range.offset <= a.range.offset
        && range_end(a.range) <= range_end(w.range)
}

/// Whether an access of a command has points at those of some stages that are in a set.
fn has_points_in(step: &Step, mask: &StageMask, stages: &[Stage]) -> bool
    ensures { result ≡ list_any (λ p. true) (points_in step.now mask.now stages.now) }
{
    let _step = step;
    for stage in stages {
        if has_stage(mask, *stage) {
            return true;
        }
    }
    false
}

/// Whether a step has points.
fn has_points(step: &Step) -> bool
    ensures { result ≡ has_points step.now }
{
    match step.statement {
        Statement::CommandAccess { access: _, scope } => {
            has_points_in(step, &scope.stages, &WORD_STAGES)
        }
        _ => true,
    }
}

/// Whether a set has those of some stages that another one has.
fn includes_of(m: &StageMask, n: &StageMask, stages: &[Stage]) -> bool
    ensures { result ≡ list_all (λ s. not (has_stage n.now s && not (has_stage m.now s))) stages.now }
{
    for stage in stages {
        if has_stage(n, *stage) && !has_stage(m, *stage) {
            return false;
        }
    }
    true
}

/// Whether a set has all stages with a word that another one has.
fn includes(m: &StageMask, n: &StageMask) -> bool
    ensures { result ≡ includes m.now n.now }
{
    includes_of(m, n, &WORD_STAGES)
}

/// Whether one access of a command is at all stages of another one.
pub fn at_stages_of(w: &Statement, a: &Statement) -> bool
    ensures { result ≡ at_stages_of w.now a.now }
{
    match (w, a) {
        (
            Statement::CommandAccess {
                access: _,
                scope: m,
            },
            Statement::CommandAccess {
                access: _,
                scope: n,
            },
        ) => includes(&m.stages, &n.stages),
        _ => false,
    }
}

pub fn same_thread(h: Option<u64>, g: Option<u64>) -> bool
    ensures { result ≡ same_thread h g }
{
    match (h, g) {
        (Some(h), Some(g)) => h == g,
        _ => false,
    }
}

/// Whether what a step is before has one above it before it, too.
fn is_behind(w: &Step, a: &Step) -> bool
    ensures { result ≡ is_behind w.now a.now }
{
    conflict(a, w)
        || same_thread(a.thread, w.thread)
        || (same_queue(a.queue, w.queue) && at_stages_of(&w.statement, &a.statement))
}

/// Whether an access stands for one above it.
pub fn stands_for(w: &Step, a: &Step) -> bool
    ensures { result ≡ stands_for w.now a.now }
{
    covers(access_of(&w.statement), access_of(&a.statement)) && has_points(w) && is_behind(w, a)
}
