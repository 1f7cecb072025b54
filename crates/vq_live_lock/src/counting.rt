//! The rule of a bell's word: it counts the rings, modulo 2^64.
//!
//! Source: this project's own.
use atomic_table::{Play, TableRule};

/// What a seat at a bell knows: that it was rung at least so often. No value of it is made.
pub struct Times {
    pub rings: u64,
}

/// The rule of a bell: its word is the number of its rings, modulo 2^64, and no seat knows of more.
pub struct Counting;

impl TableRule<(), Times, ()> for Counting {
    ghost use Rattle.vq_live_lock.specs.Rings.{IsCounted, times};

    ghost holds = { λ _. IsCounted };

    ghost first = { λ _. times 0 };
}

pub(crate) struct Hear;

impl Play<(), Times> for Hear {
    ghost use Rattle.vq_live_lock.specs.Rings.{heard};

    ghost then = { heard };
}

pub(crate) struct Ring;

impl Play<(), Times> for Ring {
    ghost use Rattle.vq_live_lock.specs.Rings.{rang};

    ghost then = { rang };
}
