//! A wait for all or any of some pairs, with a pass that each poll is given.
//!
//! Source: this project's own.
ghost use Rattle.std.specs.Prelude.{ℕ, ◌≡◌, ◌<◌, ◌≤◌, ◌+◌, Some, None, IfOk, IfSome, MatchOption, length};
ghost use Rattle.std.specs.List.{slice_get};
ghost use Rattle.futures.specs.Poll.{IfReady, OnPending};
ghost use Rattle.futures.specs.Task.{Covers, Keeps};
ghost use Rattle.vq_board.specs.Named.{view, IsOf};
ghost use Rattle.vq_poll.specs.declared.pairs.WaitMode.TheVariants.{All, Any};
ghost use Rattle.vq_poll.specs.Missing.{IsMet, KnowsMet, KnowsFirst, AreMissed};
ghost use Rattle.vq_poll.specs.Waiting.{CanWait, HasPolled, Stays, WaitsFor, plan_in, pairs_in};
ghost use Rattle.vq_poll.specs.Watching.{ArePairs, IsWatched, plan_at};

use crate::awaited::{Awaited, MOST_PAIRS};
use crate::pairs::{Met, Pair, WaitMode};
use crate::watched::WatchedBoard;
use futures::task::{Context, Poll};
use std::alloc::{AllocError, Global};
use vq_board::Pass;

/// A wait without its pass: the pair at which it stands, where it is for all, and what it has answered.
#[derive(Drop)]
pub(crate) struct Wait<'a> {
    pub(crate) awaited: Awaited<'a>,
    pub(crate) mode: WaitMode,
    pub(crate) next: u32,
    pub(crate) met: Option<Met>,
}

impl<'a> Wait<'a> {
    /// A wait before its first poll. The error is want of memory.
    pub(crate) fn new(
        alloc: Global,
        watched: WatchedBoard<'a>,
        mode: WaitMode,
        pairs: &[Pair],
    ) -> Result<Wait<'a>, AllocError>
        ensures watched { IfOk result (λ w. w.awaited.watched ≡ watched.entry) }
        ensures pairs { IfOk result (λ w. pairs_in w ≡ pairs.now) }
        ensures mode { IfOk result (λ w. w.mode ≡ mode) }
        ensures begins { IfOk result (λ w. (w.next ≡ 0) × (w.met ≡ None)) }
    {
        let awaited = Awaited::new(alloc, watched, pairs)?;
        Ok(Wait {
            awaited,
            mode,
            next: 0,
            met: None,
        })
    }

    /// Goes on to the next pair, since the one at which it stands was read at this value, which reaches it. It
    /// answers after the last.
    fn advance(&mut self, value: u64) -> Option<Met>
        requires pairs { length (pairs_in self.old) ≤ 16 }
        requires none { self.old.met ≡ None }
        requires more { self.old.next < length (pairs_in self.old) }
        ensures after { self.new ≡ record self.old { next = self.old.next + 1; met = result } }
        ensures answer { MatchOption result (self.old.next + 1 < length (pairs_in self.old))
            (λ m. (self.old.next + 1 ≡ length (pairs_in self.old)) × (m ≡ record { index = self.old.next; value = value })) }
    {
        let index = self.next;
        self.next = index + 1;
        if self.next < self.awaited.len() {
            return None;
        }
        self.met = Some(Met { index, value });
        self.met
    }

    /// A poll of a wait for all.
    fn go_all(&mut self, cx: &mut Context<'_>, pass: &mut Pass) -> Poll<Met>
        requires can { CanWait self.old pass.old }
        requires all { self.old.mode ≡ All }
        requires none { self.old.met ≡ None }
        ensures stays { Stays self.old self.new }
        ensures can { CanWait self.new pass.new }
        ensures answered { IfReady result (λ m. self.new.met ≡ Some m) }
        ensures polled { HasPolled self.old (view pass.old) (view pass.new) cx.new result }
        ensures missed { OnPending result (AreMissed (plan_in self.old) All (pairs_in self.old)
            self.new.next (view pass.old) (view pass.new)) }
        ensures waits { OnPending result (self.new.met ≡ None) }
        ensures registered { OnPending result (Covers cx.new (WaitsFor self.new)) }
        ensures kept { Keeps cx.old cx.new }
    {
        for _ in self.next..self.awaited.len() {
            let value = self.awaited.see(cx, pass, self.next);
            if value < self.awaited.pair(self.next).value {
                return Poll::Pending;
            }
            if let Some(met) = self.advance(value) {
                return Poll::Ready(met);
            }
        }
        unreachable!()
    }

    /// A poll of a wait for any.
    fn go_any(&mut self, cx: &mut Context<'_>, pass: &mut Pass) -> Poll<Met>
        requires can { CanWait self.old pass.old }
        requires any { self.old.mode ≡ Any }
        requires none { self.old.met ≡ None }
        ensures stays { Stays self.old self.new }
        ensures can { CanWait self.new pass.new }
        ensures answered { IfReady result (λ m. self.new.met ≡ Some m) }
        ensures polled { HasPolled self.old (view pass.old) (view pass.new) cx.new result }
        ensures missed { OnPending result (AreMissed (plan_in self.old) Any (pairs_in self.old)
            self.new.next (view pass.old) (view pass.new)) }
        ensures waits { OnPending result (self.new.met ≡ None) }
        ensures registered { OnPending result (Covers cx.new (WaitsFor self.new)) }
        ensures kept { Keeps cx.old cx.new }
    {
        let mut seen = [None; MOST_PAIRS];
        for index in 0..self.awaited.len() {
            let value = self.awaited.value_at(cx, pass, &mut seen, index);
            if self.awaited.pair(index).value <= value {
                self.met = Some(Met { index, value });
                return Poll::Ready(Met { index, value });
            }
        }
        Poll::Pending
    }

    /// One poll, with the pass that makes its reads.
    pub(crate) fn go(&mut self, cx: &mut Context<'_>, pass: &mut Pass) -> Poll<Met>
        requires can { CanWait self.old pass.old }
        ensures stays { Stays self.old self.new }
        ensures can { CanWait self.new pass.new }
        ensures answered { IfReady result (λ m. self.new.met ≡ Some m) }
        ensures polled { HasPolled self.old (view pass.old) (view pass.new) cx.new result }
        ensures missed { OnPending result (AreMissed (plan_in self.old) self.old.mode (pairs_in self.old)
            self.new.next (view pass.old) (view pass.new)) }
        ensures waits { OnPending result (self.new.met ≡ None) }
        ensures registered { OnPending result (Covers cx.new (WaitsFor self.new)) }
        ensures kept { Keeps cx.old cx.new }
    {
        if let Some(met) = self.met {
            return Poll::Ready(met);
        }
        match self.mode {
            WaitMode::All => self.go_all(cx, pass),
            WaitMode::Any => self.go_any(cx, pass),
        }
    }
}
