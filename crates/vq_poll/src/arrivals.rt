//! Pairs in the order in which they are found reached.
//!
//! Source: this project's own.
ghost use Rattle.std.specs.Prelude.{ℕ, ◌≡◌, ◌<◌, ◌≤◌, Some, None, IfOk, IfSome, [], length};
ghost use Rattle.std.specs.List.{range_with_len};
ghost use Rattle.futures.specs.Poll.{IfReady, OnPending};
ghost use Rattle.futures.specs.Task.{Covers, Keeps};
ghost use Rattle.vq_board.specs.Named.{view, IsOf};
ghost use Rattle.vq_poll.specs.Missing.{IsReached, KnowsMet};
ghost use Rattle.vq_poll.specs.Watching.{ArePairs, IsWatched, plan_at};

use crate::awaited::{Awaited, MOST_PAIRS};
use crate::pairs::{Met, Pair};
use crate::watched::WatchedBoard;
use futures::Stream;
use futures::task::{Context, Poll};
use std::alloc::{AllocError, Global};
use vq_board::Pass;

/// Gives each of its pairs once, when it is found reached, and then ends.
#[derive(Drop)]
pub struct Arrivals<'a> {
    awaited: Awaited<'a>,
    left: Vec<u32>,
    pass: &'a mut Pass,
}

/// The numbers below a count.
fn places(alloc: Global, count: u32) -> Result<Vec<u32>, AllocError>
    ensures { IfOk result (λ xs. xs.items ≡ range_with_len 0 count) }
{
    let mut all = Vec::new(alloc);
    for place in 0..count {
        all.push(place)?;
    }
    Ok(all)
}

impl<'a> Arrivals<'a> {
    ghost use Rattle.vq_poll.specs.Arriving.{CanArrive, HasArrived, AreLeftMissed, IsTaken, AwaitsAt, plan_on, pairs_on, view_at};

    /// The arrivals of one to sixteen pairs. The error is want of memory; no other call takes memory.
    pub fn new(
        alloc: Global,
        watched: WatchedBoard<'a>,
        pass: &'a mut Pass,
        pairs: &[Pair],
    ) -> Result<Arrivals<'a>, AllocError>
        requires watched { IsWatched watched }
        requires pass { IsOf watched.board.now pass.old }
        requires pairs { ArePairs (plan_at watched) pairs.now }
        ensures can { IfOk result CanArrive }
        ensures pairs { IfOk result (λ a. pairs_on a ≡ pairs.now) }
        ensures left { IfOk result (λ a. a.left.items ≡ range_with_len 0 (length pairs.now)) }
        ensures board { IfOk result (λ a. a.awaited.watched ≡ watched.entry) }
        ensures pass { IfOk result (λ a. a.pass.ghost_name ≡ pass.entry.ghost_name) }
    {
        let awaited = Awaited::new(alloc, watched, pairs)?;
        let left = places(alloc, pairs.len() as u32)?;
        Ok(Arrivals {
            awaited,
            left,
            pass,
        })
    }

    /// One poll. It goes through the pairs that are left, in order, registers at the bell of a pair's chain and
    /// then reads the chain, and gives the first pair that is reached. After all pairs it ends.
    pub fn go(&mut self, cx: &mut Context<'_>) -> Poll<Option<Met>>
        requires can { CanArrive self.old }
        ensures can { CanArrive self.new }
        ensures stays { (self.new.awaited ≡ self.old.awaited) × (self.new.pass.ghost_name ≡ self.old.pass.ghost_name) }
        ensures reached { IfReady result (λ o. IfSome o (IsReached (plan_on self.old) (pairs_on self.old))) }
        ensures knows { IfReady result (λ o. IfSome o
            (KnowsMet (plan_on self.old) (view_at self.new).known (pairs_on self.old))) }
        ensures taken { IfReady result (λ o. IfSome o (IsTaken self.old.left.items self.new.left.items)) }
        ensures ends { result ≡ Poll.Ready None → self.old.left.items ≡ [] }
        ensures ended { self.old.left.items ≡ [] → (result ≡ Poll.Ready None) × (self.new.left.items ≡ []) }
        ensures arrived { HasArrived self.old (view_at self.old) (view_at self.new) cx.new result }
        ensures waits { OnPending result (self.new.left.items ≡ self.old.left.items) }
        ensures missed { OnPending result (AreLeftMissed self.old (view_at self.old) (view_at self.new)) }
        ensures registered { OnPending result (Covers cx.new (AwaitsAt self.new)) }
        ensures kept { Keeps cx.old cx.new }
    {
        if self.left.is_empty() {
            return Poll::Ready(None);
        }
        let mut seen = [None; MOST_PAIRS];
        for place in 0..self.left.len() {
            let index = self.left[place];
            let value = self.awaited.value_at(cx, &mut *self.pass, &mut seen, index);
            if self.awaited.pair(index).value <= value {
                self.left.remove(place);
                return Poll::Ready(Some(Met { index, value }));
            }
        }
        Poll::Pending
    }
}

impl Stream for Arrivals<'_> {
    type Item = Met;

    ghost use Rattle.vq_poll.specs.Arriving.{CanArrive, Comes, AwaitsAt, plan_on, pairs_on};

    ghost can_poll = { CanArrive };

    ghost needs = { AwaitsAt };

    ghost yields = { λ a. Comes (plan_on a) (pairs_on a) a.left.items };

    fn poll_next(&mut self, cx: &mut Context<'_>) -> Poll<Option<Met>> {
        self.go(cx)
    }
}
