//! Accesses of one kind, which are ordered alike.
ghost use Rattle.std.specs.Prelude.{◌≡◌, ◌&&◌, not, is_some};
ghost use Rattle.vq_capture.specs.Races.{access_of};
ghost use Rattle.vq_capture_touched.specs.Kinds.{are_alike, range_of, same_flag, same_kind, same_mask, same_order};
ghost use Rattle.vq_capture_touched.specs.Kinds.{same_some, writes};

use crate::conflicts::{access_of, is_write};
use crate::touch::Touch;
use vq_capture::stage::StageMask;
use vq_capture::statement::{Range, Statement};

#[inline(always)]
fn same_flag(a: bool, b: bool) -> bool
    ensures { result ≡ same_flag a b }
{
    if a { b } else { !b }
}

#[inline(always)]
fn both(a: bool, b: bool) -> bool
    ensures { result ≡ (a && b) }
{
    a && b
}

/// Whether two numbers are there and are the same, or neither is.
fn same_some(m: Option<u64>, n: Option<u64>) -> bool
    ensures { result ≡ same_some m n }
{
    match (m, n) {
        (Some(m), Some(n)) => m == n,
        (None, None) => true,
        _ => false,
    }
}

/// Whether two sets have the same stages.
fn same_mask(m: &StageMask, n: &StageMask) -> bool
    ensures { result ≡ same_mask m.now n.now }
{
    let same = same_flag(m.begin, n.begin);
    let same = both(same, same_flag(m.indirect, n.indirect));
    let same = both(same, same_flag(m.input, n.input));
    let same = both(same, same_flag(m.vertex, n.vertex));
    let same = both(same, same_flag(m.early, n.early));
    let same = both(same, same_flag(m.fragment, n.fragment));
    let same = both(same, same_flag(m.late, n.late));
    let same = both(same, same_flag(m.color, n.color));
    let same = both(same, same_flag(m.compute, n.compute));
    let same = both(same, same_flag(m.copy, n.copy));
    let same = both(same, same_flag(m.host, n.host));
    let same = both(same, same_flag(m.other, n.other));
    let same = both(same, same_flag(m.end, n.end));
    same
}

/// Whether lines that say this are accesses that are ordered alike, if they are of one queue or thread and at one line.
fn are_alike(a: &Statement, b: &Statement) -> bool
    ensures { result ≡ are_alike a.now b.now }
{
    match (a, b) {
        (Statement::HostAccess { access: _ }, Statement::HostAccess { access: _ }) => true,
        (
            Statement::CommandAccess {
                access: _,
                scope: m,
            },
            Statement::CommandAccess {
                access: _,
                scope: n,
            },
        ) => same_mask(&m.stages, &n.stages),
        (
            Statement::Transition {
                first: _,
                second: m,
                access: _,
            },
            Statement::Transition {
                first: _,
                second: n,
                access: _,
            },
        ) => same_mask(&m.stages, &n.stages),
        _ => false,
    }
}

/// Whether a line accesses nothing.
fn touches_nothing(said: &Statement) -> bool
    ensures { result ≡ not (is_some (access_of said.now)) }
{
    !access_of(said).is_some()
}

/// Whether lines are accesses that are ordered alike, or neither is an access.
fn same_order(a: &Statement, b: &Statement) -> bool
    ensures { result ≡ same_order a.now b.now }
{
    are_alike(a, b) || (touches_nothing(a) && touches_nothing(b))
}

/// Whether a line writes.
pub fn writes(said: &Statement) -> bool
    ensures { result ≡ writes said.now }
{
    match access_of(said) {
        Some(access) => is_write(access.kind),
        None => false,
    }
}

/// The units that a line accesses.
pub fn range_of(said: &Statement) -> Range
    ensures { result ≡ range_of said.now }
{
    match access_of(said) {
        Some(access) => access.range,
        None => Range {
            offset: 0,
            length: 0,
        },
    }
}

/// Whether two accesses are of one kind.
pub fn same_kind(a: &Touch, b: &Touch) -> bool
    ensures { result ≡ same_kind a.now b.now }
{
    same_some(a.step.queue, b.step.queue)
        && same_some(a.step.thread, b.step.thread)
        && a.at.queue == b.at.queue
        && a.at.thread == b.at.thread
        && same_order(&a.step.statement, &b.step.statement)
        && same_flag(writes(&a.step.statement), writes(&b.step.statement))
}
