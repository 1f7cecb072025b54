//! Ringing a bell, and sleeping until it rings.
//!
//! Source: this project's own.
ghost use Rattle.std.specs.Prelude.{ℕ, ◌≡◌, ◌≤◌, ◌<◌, ◌%◌, ◌^◌};
ghost use Rattle.vq_live_lock.specs.Named.{IsHeardOf};

use crate::bell::{Bell, Heard};
use crate::counting::{Hear, Ring};
use atomic_table::Table;
use std::alloc::{AllocError, Global};
use std::sync::Wait;

impl Bell {
    /// A bell that wasn't rung yet. The error is want of memory; no other call takes memory.
    pub fn new(alloc: Global) -> Result<Bell, AllocError> {
        let (table, _seat) = Table::of_words(alloc, &[0], &())?;
        Ok(Bell { table })
    }

    /// That it was rung as often as it was.
    pub(crate) fn hear(&self) -> Heard
        ensures { (k : ℕ) × IsHeardOf self.now result k }
    {
        let (_, seat) = self.table.shared.load_new_seat::<Hear>(0);
        Heard { seat }
    }

    /// How often it was rung, modulo 2^32, which is known then.
    pub(crate) fn hear_again(&self, heard: &mut Heard) -> u32
        requires { (k : ℕ) × IsHeardOf self.now heard.old k }
        ensures { (k : ℕ) → IsHeardOf self.now heard.old k →
            (t : ℕ) × IsHeardOf self.now heard.new t × (k ≤ t) × (result ≡ t % 2 ^ 32) }
    {
        (self.table.shared.load::<Hear>(&mut heard.seat, 0) % 0x1_0000_0000) as u32
    }

    /// Sleeps until it is rung, unless it was rung since this count was read. It may also return for no
    /// reason.
    pub(crate) fn sleep<R: Wait>(&self, rt: &R, rings: u32) {
        self.table.shared.park(rt, 0, rings);
    }

    /// Counts a ring, which is known then. Who sleeps isn't woken yet, and nobody can fall asleep on an
    /// earlier count any more.
    pub(crate) fn count(&self, heard: &mut Heard)
        requires { (k : ℕ) × IsHeardOf self.now heard.old k }
        ensures { (k : ℕ) → IsHeardOf self.now heard.old k → (t : ℕ) × IsHeardOf self.now heard.new t × (k < t) }
    {
        self.table.shared.fetch_add::<Ring>(&mut heard.seat, 0, 1);
    }

    /// Wakes all who sleep.
    pub(crate) fn wake(&self) {
        self.table.shared.wake_all(0);
    }
}
