//! The pairs of a wait: registering at the bell of a pair's chain, and then reading the chain.
//!
//! Source: this project's own.
ghost use Rattle.std.specs.Prelude.{ℕ, ◌≡◌, ◌<◌, ◌≤◌, ◌≢◌, Some, None, IfOk, IfSome, length};
ghost use Rattle.std.specs.List.{slice_get};
ghost use Rattle.futures.specs.Task.{Hears, IsArmed, Keeps};
ghost use Rattle.vq_board_laws.specs.declared.view.View.{View};
ghost use Rattle.vq_board.specs.Named.{plan_of, view, IsOf};
ghost use Rattle.vq_payload.specs.Learning.{HasLearned};
ghost use Rattle.vq_payload.specs.Reading.{HasRead};
ghost use Rattle.vq_timeline.specs.Named.{IsAt, chain_at};
ghost use Rattle.vq_poll.specs.declared.pairs.Pair.{Pair};
ghost use Rattle.vq_poll.specs.Hearing.{HearsBell};
ghost use Rattle.vq_poll.specs.Seeing.{IsSeen, NotSeen, Looked, HasValue};
ghost use Rattle.vq_poll.specs.Waiting.{CanRead};
ghost use Rattle.vq_poll.specs.Watching.{ArePairs, IsWatched, plan_at};

use crate::bell::Bell;
use crate::pairs::Pair;
use crate::seats::Seats;
use crate::watched::WatchedBoard;
use futures::task::Context;
use std::alloc::{AllocError, Global};
use vq_board::{Board, Pass};
use vq_timeline::LockedTimeline;

/// The pairs of a wait, and its seats at their bells.
#[derive(Drop)]
pub(crate) struct Awaited<'a> {
    pub(crate) watched: WatchedBoard<'a>,
    pub(crate) seats: Seats<'a>,
    pub(crate) pairs: Vec<Pair>,
}

/// How many pairs a wait has at most.
pub(crate) const MOST_PAIRS: usize = 16;

/// Reads a chain whose bell the context hears already.
fn read_heard(
    cx: &Context<'_>,
    bell: &Bell,
    timeline: &LockedTimeline,
    board: &Board,
    pass: &mut Pass,
) -> u64
    requires heard { Hears cx.now bell.now.source.id }
    requires timeline { IsAt board.now timeline.now }
    requires pass { IsOf board.now pass.old }
    ensures pass { IsOf board.now pass.new }
    ensures learned { HasLearned pass.old pass.new }
    ensures payload { HasRead (plan_of board.now) (chain_at timeline.now)
        (view pass.old) (view pass.new) result }
{
    let _ = cx;
    let _ = bell;
    timeline.read(board, pass)
}

impl<'a> Awaited<'a> {
    /// Takes a seat at the bell of each pair's chain. The error is want of memory.
    pub(crate) fn new(
        alloc: Global,
        watched: WatchedBoard<'a>,
        pairs: &[Pair],
    ) -> Result<Awaited<'a>, AllocError>
        ensures watched { IfOk result (λ a. a.watched ≡ watched.entry) }
        ensures pairs { IfOk result (λ a. a.pairs.items ≡ pairs.now) }
    {
        let seats = Seats::new(alloc, watched.bells, pairs)?;
        let pairs = Vec::from_slice(alloc, pairs)?;
        Ok(Awaited {
            watched,
            seats,
            pairs,
        })
    }

    /// How many pairs there are.
    pub(crate) fn len(&self) -> u32
        requires few { length self.now.pairs.items ≤ 16 }
        ensures { result ≡ length self.now.pairs.items }
    {
        self.pairs.len() as u32
    }

    /// The pair at a place.
    pub(crate) fn pair(&self, index: u32) -> Pair
        requires exists { index < length self.now.pairs.items }
        ensures { slice_get self.now.pairs.items index ≡ Some result }
    {
        self.pairs[index as usize]
    }

    /// Registers at the bell of a pair's chain, and then reads the chain.
    pub(crate) fn see(&self, cx: &mut Context<'_>, pass: &mut Pass, index: u32) -> u64
        requires can { CanRead self.now pass.old }
        requires exists { index < length self.now.pairs.items }
        ensures pass { IsOf self.now.watched.board.now pass.new }
        ensures learned { HasLearned pass.old pass.new }
        ensures payload { (x : Pair) → slice_get self.now.pairs.items index ≡ Some x →
            HasRead (plan_at self.now.watched) x.chain (view pass.old) (view pass.new) result }
        ensures heard { (x : Pair) → slice_get self.now.pairs.items index ≡ Some x →
            HearsBell cx.new self.now.watched.bells.now x.chain }
        ensures armed { IsArmed cx.new }
        ensures kept { Keeps cx.old cx.new }
    {
        let chain = self.pair(index).chain as usize;
        let bell = &self.watched.bells[chain];
        self.seats.hear(cx, bell, index);
        let timeline = &self.watched.timelines[chain];
        read_heard(cx, bell, timeline, self.watched.board, pass)
    }

    /// The value that this poll has read of the chain of a pair, if any.
    fn seen_of(&self, seen: &[Option<u64>], chain: u32) -> Option<u64>
        requires room { length self.now.pairs.items ≤ length seen.now }
        ensures some { IfSome result (IsSeen self.now.pairs.items seen.now chain) }
        ensures none { result ≡ None → NotSeen self.now.pairs.items seen.now chain }
    {
        for index in 0..self.pairs.len() {
            if self.pairs[index].chain == chain && seen[index].is_some() {
                return seen[index];
            }
        }
        None
    }

    /// The value of a pair's chain in this poll: the first call for a chain reads it.
    pub(crate) fn value_at(
        &self,
        cx: &mut Context<'_>,
        pass: &mut Pass,
        seen: &mut [Option<u64>],
        index: u32,
    ) -> u64
        requires can { CanRead self.now pass.old }
        requires exists { index < length self.now.pairs.items }
        requires room { length self.now.pairs.items ≤ length seen.old }
        ensures room { length seen.new ≡ length seen.old }
        ensures pass { IsOf self.now.watched.board.now pass.new }
        ensures learned { HasLearned pass.old pass.new }
        ensures looked { (v : View) → Looked self.now v (view pass.old) cx.old seen.old →
            HasValue self.now v (view pass.new) cx.new seen.new index result }
        ensures kept { Keeps cx.old cx.new }
    {
        let chain = self.pair(index).chain;
        if let Some(value) = self.seen_of(seen, chain) {
            return value;
        }
        let value = self.see(cx, pass, index);
        seen[index as usize] = Some(value);
        value
    }
}
