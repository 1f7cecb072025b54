//! The rule of a gauge: a word with the value that a timeline reached, which never falls, and the notes of those
//! who wait for more.
//!
//! Source: this project's own.
use crate::bell::Heard;
use atomic_table::{Play, Split, TableRule};

/// What a seat at the gauge knows: a value that it reached, and whether the seat only reads (0), is the pen (1)
/// or a note (2). The pen has the least value that is noted, if any, and a note the one for which it is left;
/// both have how often the bell was rung. No value of it is made.
pub struct Known {
    pub floor: u64,
    pub role: u64,
    pub least: Option<u64>,
    pub rings: u64,
}

/// What a gauge was made for: the value that it starts with.
#[derive(Drop)]
pub struct Start {
    pub initial: u64,
}

/// The rule of a gauge: it isn't below what any seat knows, and one seat writes it and knows it. What is noted is
/// above it, and a note that isn't kept any more was rung for.
pub struct Rising;

impl TableRule<Heard, Known, Start> for Rising {
    ghost use Rattle.std.specs.Prelude.{None};
    ghost use Rattle.vq_live_lock.specs.Gauges.{IsRising, pen_at};

    ghost holds = { λ h. IsRising h.initial };

    ghost first = { λ h. pen_at h.initial None 0 };
}

pub(crate) struct Look;

impl Play<Heard, Known> for Look {
    ghost use Rattle.vq_live_lock.specs.Gauges.{looked};

    ghost then = { looked };
}

pub(crate) struct Raise;

impl Play<Heard, Known> for Raise {
    ghost use Rattle.vq_live_lock.specs.Gauges.{raised};

    ghost then = { raised };
}

pub(crate) struct Clear;

impl Play<Heard, Known> for Clear {
    ghost use Rattle.vq_live_lock.specs.Gauges.{cleared};

    ghost then = { cleared };
}

pub(crate) struct Leave;

impl Play<Heard, Known> for Leave {
    ghost use Rattle.vq_live_lock.specs.Gauges.{left};

    ghost then = { left };
}

pub(crate) struct Share;

impl Split<Known> for Share {
    ghost use Rattle.vq_live_lock.specs.Gauges.{reads};

    ghost left = { λ v. v };

    ghost right = { λ v. reads v.floor };
}

pub(crate) struct HandOut;

impl Split<Known> for HandOut {
    ghost use Rattle.vq_live_lock.specs.Gauges.{note_of};

    ghost left = { λ v. v };

    ghost right = { note_of };
}
