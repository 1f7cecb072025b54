//! The same wait with a pass of its own, which it gives back.
//!
//! Source: this project's own, over Vulkan 1.3, vkWaitSemaphores.
ghost use Rattle.std.specs.Prelude.{ℕ, ◌≡◌, Some, IfOk, length};
ghost use Rattle.vq_board.specs.Named.{IsOf};
ghost use Rattle.vq_poll.specs.Waiting.{pairs_in};
ghost use Rattle.vq_poll.specs.Watching.{ArePairs, IsWatched, plan_at};

use crate::pairs::{Met, Pair, WaitMode};
use crate::wait::Wait;
use crate::watched::WatchedBoard;
use futures::Future;
use futures::task::{Context, Poll};
use std::alloc::{AllocError, Global};
use vq_board::Pass;

/// Waits until all of its pairs are reached, or one of them. With the answer it gives the pass back, which knows
/// it; so `block_on` at Ok shows it too. Where `block_on` fails the pass is gone.
#[derive(Drop)]
pub struct WaitOwned<'a> {
    wait: Wait<'a>,
    pass: Option<Pass>,
}

impl<'a> WaitOwned<'a> {
    ghost use Rattle.vq_poll.specs.Owning.{CanWaitOwned};

    /// A wait for one to sixteen pairs. The error is want of memory; no other call takes memory. The pass is gone
    /// then.
    pub fn new(
        alloc: Global,
        watched: WatchedBoard<'a>,
        pass: Pass,
        mode: WaitMode,
        pairs: &[Pair],
    ) -> Result<WaitOwned<'a>, AllocError>
        requires watched { IsWatched watched }
        requires pass { IsOf watched.board.now pass }
        requires pairs { ArePairs (plan_at watched) pairs.now }
        ensures can { IfOk result CanWaitOwned }
        ensures pairs { IfOk result (λ w. pairs_in w.wait ≡ pairs.now) }
        ensures mode { IfOk result (λ w. w.wait.mode ≡ mode) }
        ensures board { IfOk result (λ w. w.wait.awaited.watched ≡ watched.entry) }
    {
        let wait = Wait::new(alloc, watched, mode, pairs)?;
        Ok(WaitOwned {
            wait,
            pass: Some(pass),
        })
    }
}

impl Future for WaitOwned<'_> {
    type Output = (Met, Pass);

    ghost use Rattle.vq_poll.specs.Owning.{CanWaitOwned, GivesBack};
    ghost use Rattle.vq_poll.specs.Waiting.{WaitsFor};

    ghost can_poll = { CanWaitOwned };

    ghost needs = { λ w. WaitsFor w.wait };

    ghost gives = { λ w o. GivesBack w.wait o.0 o.1 };

    fn poll(&mut self, cx: &mut Context<'_>) -> Poll<(Met, Pass)> {
        let mut pass = self.pass.take().unwrap();
        match self.wait.go(cx, &mut pass) {
            Poll::Ready(met) => Poll::Ready((met, pass)),
            Poll::Pending => {
                self.pass = Some(pass);
                Poll::Pending
            }
        }
    }
}
