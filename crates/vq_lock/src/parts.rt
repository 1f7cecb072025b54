//! What fits a key, and the rule of a lock's word.
//!
//! Source: this project's own.
use atomic_table::{Play, TableRule};

/// Which content fits a key.
pub trait Fits<K> {
    ghost fits: { K → Self → Type 0 };
}

/// What a seat at the lock knows: the lock's key, and whether it holds the content (1) or not (0). No
/// value of it is made.
pub struct Turn<K> {
    pub home: K,
    pub holds: u64,
}

/// The rule of the lock.
pub struct Ruled;

impl<K, T: Fits<K>> TableRule<T, Turn<K>, K> for Ruled {
    ghost use Rattle.vq_lock.specs.Locks.{IsLocked, turn};

    ghost holds = { IsLocked T.fits };

    ghost first = { λ h. turn h 0 };
}

pub(crate) struct Take;

impl<K, T: Fits<K>> Play<T, Turn<K>> for Take {
    ghost use Rattle.vq_lock.specs.Locks.{taken};

    ghost then = { taken T.fits };
}

pub(crate) struct Sit;

impl<K, T: Fits<K>> Play<T, Turn<K>> for Sit {
    ghost use Rattle.vq_lock.specs.Locks.{sat};

    ghost then = { sat };
}

pub(crate) struct Give;

impl<K, T: Fits<K>> Play<T, Turn<K>> for Give {
    ghost use Rattle.vq_lock.specs.Locks.{given};

    ghost then = { given };
}
