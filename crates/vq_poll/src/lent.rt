//! A wait for all or any of some pairs, with a pass that is lent to it.
//!
//! Source: this project's own, over Vulkan 1.3, vkWaitSemaphores.
ghost use Rattle.std.specs.Prelude.{ℕ, ◌≡◌, Some, None, IfOk, IfSome, length};
ghost use Rattle.futures.specs.Poll.{IfReady, OnPending};
ghost use Rattle.futures.specs.Task.{Covers, Keeps};
ghost use Rattle.vq_board.specs.Named.{view, IsOf};
ghost use Rattle.vq_poll.specs.declared.pairs.WaitMode.TheVariants.{All};
ghost use Rattle.vq_poll.specs.Missing.{IsMet, KnowsMet, KnowsFirst, AreMissed};
ghost use Rattle.vq_poll.specs.Waiting.{CanWaitLent, HasPolled, Stays, WaitsFor, plan_in, pairs_in, view_of};
ghost use Rattle.vq_poll.specs.Watching.{ArePairs, IsWatched, plan_at};

use crate::pairs::{Met, Pair, WaitMode};
use crate::wait::Wait;
use crate::watched::WatchedBoard;
use futures::Future;
use futures::task::{Context, Poll};
use std::alloc::{AllocError, Global};
use vq_board::Pass;

/// Waits until all of its pairs are reached, or one of them. What a poll shows is in the contract of `go`. What
/// `block_on` shows at Ok is that reads of chains lead from what the pass knew to the value found, which is the
/// initial one or that of a made operation, and for all to each pair reached (`MeetsLent`). To have the pass back
/// with what it then knows, take `WaitOwned`.
#[derive(Drop)]
pub struct WaitPairs<'a> {
    wait: Wait<'a>,
    pass: &'a mut Pass,
}

impl<'a> WaitPairs<'a> {
    /// A wait for one to sixteen pairs. The error is want of memory; no other call takes memory.
    pub fn new(
        alloc: Global,
        watched: WatchedBoard<'a>,
        pass: &'a mut Pass,
        mode: WaitMode,
        pairs: &[Pair],
    ) -> Result<WaitPairs<'a>, AllocError>
        requires watched { IsWatched watched }
        requires pass { IsOf watched.board.now pass.old }
        requires pairs { ArePairs (plan_at watched) pairs.now }
        ensures can { IfOk result CanWaitLent }
        ensures pairs { IfOk result (λ w. pairs_in w.wait ≡ pairs.now) }
        ensures mode { IfOk result (λ w. w.wait.mode ≡ mode) }
        ensures board { IfOk result (λ w. w.wait.awaited.watched ≡ watched.entry) }
        ensures pass { IfOk result (λ w. w.pass.ghost_name ≡ pass.entry.ghost_name) }
    {
        let wait = Wait::new(alloc, watched, mode, pairs)?;
        Ok(WaitPairs { wait, pass })
    }

    /// One poll. It goes through the pairs in order, registers at the bell of a pair's chain and then reads the
    /// chain: for all from the pair at which it stood to the first that isn't reached, for any to the first that
    /// is. After the end it answers the same again.
    pub fn go(&mut self, cx: &mut Context<'_>) -> Poll<Met>
        requires can { CanWaitLent self.old }
        ensures stays { Stays self.old.wait self.new.wait × (self.new.pass.ghost_name ≡ self.old.pass.ghost_name) }
        ensures can { CanWaitLent self.new }
        ensures met { IfReady result (IsMet (plan_in self.old.wait) self.old.wait.mode (pairs_in self.old.wait)) }
        ensures knows { IfReady result
            (KnowsMet (plan_in self.old.wait) (view_of self.new).known (pairs_in self.old.wait)) }
        ensures knows_all { self.old.wait.mode ≡ All → IfReady result (λ _.
            KnowsFirst (plan_in self.old.wait) (view_of self.new).known (pairs_in self.old.wait)
            (length (pairs_in self.old.wait))) }
        ensures answered { IfReady result (λ m. self.new.wait.met ≡ Some m) }
        ensures polled { HasPolled self.old.wait (view_of self.old) (view_of self.new) cx.new result }
        ensures missed { OnPending result (AreMissed (plan_in self.old.wait) self.old.wait.mode
            (pairs_in self.old.wait) self.new.wait.next (view_of self.old) (view_of self.new)) }
        ensures waits { OnPending result (self.new.wait.met ≡ None) }
        ensures registered { OnPending result (Covers cx.new (WaitsFor self.new.wait)) }
        ensures kept { Keeps cx.old cx.new }
    {
        self.wait.go(cx, &mut *self.pass)
    }
}

impl Future for WaitPairs<'_> {
    type Output = Met;

    ghost use Rattle.vq_poll.specs.Waiting.{CanWaitLent, MeetsLent, WaitsFor};

    ghost can_poll = { CanWaitLent };

    ghost needs = { λ w. WaitsFor w.wait };

    ghost gives = { MeetsLent };

    fn poll(&mut self, cx: &mut Context<'_>) -> Poll<Met> {
        self.go(cx)
    }
}
