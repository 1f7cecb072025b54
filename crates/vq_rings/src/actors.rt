//! Sets of actors, by their numbers.
//!
//! Source: this project's own.

/// The caller's number, which plays the host.
pub(crate) const CALLER: u32 = 63;

/// How many numbers the workers have. Two of them whose places differ by a multiple of this share one, so that a call of
/// one may be a call of the other too.
pub(crate) const WORKERS: usize = 63;

/// The number of the worker of a place.
pub(crate) fn number_of(place: usize) -> u32 {
    (place % WORKERS) as u32
}

/// A set of actors.
#[derive(Clone, Copy)]
pub(crate) struct Actors {
    /// A bit for each number.
    pub(crate) bits: u64,
}

impl Actors {
    /// Nobody.
    pub(crate) fn none() -> Actors {
        Actors { bits: 0 }
    }

    /// All workers.
    pub(crate) fn workers() -> Actors {
        Actors {
            bits: u64::MAX >> 1,
        }
    }

    /// The actors of one number.
    pub(crate) fn of(number: u32) -> Actors {
        Actors {
            bits: 1u64.rotate_left(number),
        }
    }

    /// Those of both sets.
    pub(crate) fn and(self, other: Actors) -> Actors {
        Actors {
            bits: self.bits | other.bits,
        }
    }

    /// Those that aren't in the other set.
    pub(crate) fn without(self, other: Actors) -> Actors {
        Actors {
            bits: self.bits & !other.bits,
        }
    }

    /// Whether nobody is in the set.
    pub(crate) fn is_empty(self) -> bool {
        self.bits == 0
    }

    /// Whether somebody is in both sets.
    pub(crate) fn meets(self, other: Actors) -> bool {
        self.bits & other.bits != 0
    }

    /// The least number of the set.
    pub(crate) fn first(self) -> Option<u32> {
        if self.is_empty() {
            None
        } else {
            Some(self.bits.trailing_zeros())
        }
    }
}
