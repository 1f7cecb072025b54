//! Tasks of one executor that wait for A.
ghost use Rattle.std.specs.Prelude.{IfSome};
ghost use Rattle.vq_board.specs.Named.{IsOf};
ghost use Rattle.vq_timeline_stage.specs.TwoBatches.{IsOfTwoBatches};
ghost use Rattle.vq_poll.specs.Owning.{CanWaitOwned};
ghost use Rattle.vq_poll.specs.Watching.{IsWatched, plan_at};

use futures::Future;
use futures::executor::LocalPool;
use futures::task::{Context, Doorbell, Poll};
use std::alloc::AllocGlobal;
use std::random::RandomSource;
use std::sync::atomic::{AtomicU64, Ordering};
use vq_board::Pass;
use vq_poll::{Pair, WaitMode, WaitOwned, WatchedBoard};

/// A task that waits, and counts itself once it has found its value.
#[derive(Drop)]
pub struct Counted<'a> {
    pub wait: WaitOwned<'a>,
    pub met: &'a AtomicU64,
}

impl Future for Counted<'_> {
    type Output = ();

    ghost use Rattle.vq_poll.specs.Owning.{CanWaitOwned};

    ghost can_poll = { λ c. CanWaitOwned c.wait };

    fn poll(&mut self, cx: &mut Context<'_>) -> Poll<()> {
        match self.wait.poll(cx) {
            Poll::Ready(_) => {
                self.met.fetch_add(1, Ordering::SeqCst);
                Poll::Ready(())
            }
            Poll::Pending => Poll::Pending,
        }
    }
}

/// A task that waits for A to come to this value.
#[tactic(auto, using(vq_timeline_stage::proofs::Cited::pairs_of_first, vq_timeline_stage::proofs::Cited::one_first))]
fn task_of<'a, R: AllocGlobal>(
    rt: &R,
    watched: WatchedBoard<'a>,
    pass: Pass,
    met: &'a AtomicU64,
    value: u64,
) -> Option<Counted<'a>>
    requires watched { IsWatched watched }
    requires plan { IsOfTwoBatches (plan_at watched) }
    requires pass { IsOf watched.board.now pass }
    ensures { IfSome result (λ c. CanWaitOwned c.wait) }
{
    let pairs = [Pair { chain: 0, value }];
    match WaitOwned::new(rt.alloc(), watched, pass, WaitMode::All, &pairs) {
        Ok(wait) => Some(Counted { wait, met }),
        Err(_) => None,
    }
}

/// Hands both tasks to the pool. It says whether there was memory.
fn spawn_both<'a>(pool: &LocalPool<Counted<'a>>, first: Counted<'a>, second: Counted<'a>) -> bool
    requires first { CanWaitOwned first.wait }
    requires second { CanWaitOwned second.wait }
{
    let Ok(spawner) = pool.spawner() else {
        return false;
    };
    let one = spawner.spawn(first).is_ok();
    let two = spawner.spawn(second).is_ok();
    one && two
}

/// Two such tasks in a pool, whose thread sleeps while none of them is woken.
fn pool_of<'a, R: RandomSource + AllocGlobal>(
    rt: &R,
    first: Counted<'a>,
    second: Counted<'a>,
) -> Option<LocalPool<Counted<'a>>>
    requires first { CanWaitOwned first.wait }
    requires second { CanWaitOwned second.wait }
{
    let Ok(pool) = LocalPool::with_doorbell(rt, Doorbell::parking()) else {
        return None;
    };
    if spawn_both(&pool, first, second) {
        Some(pool)
    } else {
        None
    }
}

/// A pool of two tasks, by these passes, which wait for these values.
pub fn pool_for<'a, R: RandomSource + AllocGlobal>(
    rt: &R,
    watched: WatchedBoard<'a>,
    host: Pass,
    submitter: Pass,
    met: &'a AtomicU64,
    values: (u64, u64),
) -> Option<LocalPool<Counted<'a>>>
    requires watched { IsWatched watched }
    requires plan { IsOfTwoBatches (plan_at watched) }
    requires host { IsOf watched.board.now host }
    requires submitter { IsOf watched.board.now submitter }
{
    let first = task_of(rt, watched, host, met, values.0)?;
    let second = task_of(rt, watched, submitter, met, values.1)?;
    pool_of(rt, first, second)
}
