//! The seats of a wait at the bells of its chains.
//!
//! Source: this project's own.
ghost use Rattle.futures.specs.Task.{Hears, IsArmed, Keeps};
ghost use Rattle.std.specs.Prelude.{ℕ, ◌≡◌};

use crate::bell::Bell;
use crate::pairs::Pair;
use futures::task::{Context, Poll};
use std::alloc::{AllocError, Global};

/// Under which key a wait sits at the bell of a chain.
#[derive(Clone, Copy)]
struct Seat {
    chain: u32,
    key: Option<usize>,
}

/// A seat for each pair, in their order. They are given up when this is dropped.
pub(crate) struct Seats<'a> {
    bells: &'a [Bell],
    taken: Vec<Seat>,
}

impl Drop for Seats<'_> {
    fn drop(self) {
        let Seats { bells, taken } = self;
        for seat in &taken {
            give_up(bells, *seat);
        }
    }
}

/// Gives a seat up.
fn give_up(bells: &[Bell], seat: Seat) {
    if let (Some(bell), Some(key)) = (bells.get(seat.chain as usize), seat.key) {
        bell.leave(key);
    }
}

impl<'a> Seats<'a> {
    /// A seat for each of the pairs. The error is want of memory; then no seat is taken.
    pub(crate) fn new(
        alloc: Global,
        bells: &'a [Bell],
        pairs: &[Pair],
    ) -> Result<Seats<'a>, AllocError> {
        let taken = Vec::with_capacity(alloc, pairs.len())?;
        let mut seats = Seats { bells, taken };
        for pair in pairs {
            seats.take(pair.chain)?;
        }
        Ok(seats)
    }

    /// Takes a seat at the bell of a chain.
    fn take(&mut self, chain: u32) -> Result<(), AllocError> {
        let key = match self.bells.get(chain as usize) {
            Some(bell) => bell.enter()?,
            None => None,
        };
        self.taken.push(Seat { chain, key })?;
        Ok(())
    }

    /// Registers the task at a bell, under the key of the pair at this place. Where there is no key the task is
    /// polled again at once.
    pub(crate) fn hear(&self, cx: &mut Context<'_>, bell: &Bell, place: u32)
        ensures armed { IsArmed cx.new }
        ensures heard { Hears cx.new bell.now.source.id }
        ensures kept { Keeps cx.old cx.new }
    {
        match self.key_at(place) {
            Some(key) => bell.hear(cx, key),
            None => {
                let _: Poll<()> = cx.yield_now();
            }
        }
    }

    fn key_at(&self, place: u32) -> Option<usize> {
        self.taken.get(place as usize).and_then(|seat| seat.key)
    }
}
