//! Which point is ordered directly before which.
ghost use Rattle.std.specs.Prelude.{◌≡◌, ◌||◌, None};
ghost use Rattle.vq_ground.specs.Lists.{has};
ghost use Rattle.vq_capture.specs.Before.{by_signals, is_after, is_cut, same_thread};
ghost use Rattle.vq_capture.specs.Before.{was_handed};
ghost use Rattle.vq_capture_seen.specs.Ways.{leads};

use crate::spot::Spot;
use vq_capture::capture::Step;
use vq_capture::statement::Statement;
use vq_capture_touched::joins::{
    by_scopes, follows_them, is_cut, is_semaphore_operation, same_queue,
};

/// Whether a line is one of some.
fn has(lines: &[u64], line: u64) -> bool
    ensures { result ≡ has lines.now line }
{
    for other in lines {
        if *other == line {
            return true;
        }
    }
    false
}

fn by_signals(x: &Step, y: &Step) -> bool
    ensures { result ≡ by_signals (record { step = x.now; stage = None }) (record { step = y.now; stage = None }) }
{
    same_queue(x.queue, y.queue)
        && is_semaphore_operation(&x.statement)
        && follows_them(&y.statement)
}

fn was_handed(said: &Statement, line: u64) -> bool
    ensures { result ≡ was_handed said.now line }
{
    match said {
        Statement::SubmitHanded { queue: _, handed } => *handed == line,
        _ => false,
    }
}

fn same_thread(h: Option<u64>, g: Option<u64>) -> bool
    ensures { result ≡ same_thread h g }
{
    match (h, g) {
        (Some(h), Some(g)) => h == g,
        _ => false,
    }
}

fn is_after(said: &Statement, thread: Option<u64>) -> bool
    ensures { result ≡ is_after said.now thread }
{
    match (said, thread) {
        (Statement::After { thread: h }, Some(g)) => *h == g,
        _ => false,
    }
}

fn by_host(x: &Step, y: &Step) -> bool
    ensures { result ≡ (same_thread x.now.thread y.now.thread || is_after y.now.statement x.now.thread) }
{
    same_thread(x.thread, y.thread) || is_after(&y.statement, x.thread)
}

fn by_cut(x: &Step, y: &Step) -> bool
    ensures { result ≡ (is_cut x.now.statement || is_cut y.now.statement) }
{
    is_cut(&x.statement) || is_cut(&y.statement)
}

fn by_release(x: &Spot, y: &Spot) -> bool
    ensures { result ≡ (has y.now.released x.now.point.step.line
        || was_handed y.now.point.step.statement x.now.point.step.line) }
{
    has(&y.released, x.step.line) || was_handed(&y.step.statement, x.step.line)
}

/// Whether one point is ordered directly before another.
pub fn leads(x: &Spot, y: &Spot) -> bool
    ensures { result ≡ leads x.now y.now }
{
    if y.step.line <= x.step.line {
        return false;
    }
    by_scopes(&x.step, x.stage, &y.step, y.stage)
        || by_signals(&x.step, &y.step)
        || by_release(x, y)
        || by_host(&x.step, &y.step)
        || by_cut(&x.step, &y.step)
}
