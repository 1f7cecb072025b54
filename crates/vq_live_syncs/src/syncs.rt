//! The binary sync objects of a timeline's points, as its driver has them, and a look at one.
//!
//! Source: this project's own.
ghost use Rattle.std.specs.Prelude.{ℕ, Bool, ◌≡◌, true, IfSome};

use crate::timeline::Taken;
use std::marker::PhantomData;

/// The binary sync objects of a timeline's points. A driver resets the one of a point after each take of
/// that point and before the submission, and keeps the take's number with it.
pub trait BinarySync {
    /// That the sync object of this point was seen signaled, reset for the take with this number and
    /// for no later one. What was seen once stays so.
    ghost signaled: { ℕ → ℕ → Bool };

    /// Whether the sync object of this point is signaled, and is still that of the take with this number.
    fn is_signaled(&mut self, point: u32, number: u64) -> bool
        ensures { result ≡ true → signaled point number ≡ true };
}

/// That the sync object of a take was seen signaled. Only a look at it makes one.
#[derive(Drop)]
pub struct Signaled<S: BinarySync> {
    pub(crate) point: u32,
    pub(crate) number: u64,
    pub(crate) of: PhantomData<S>,
    ghost seen: { S.signaled point number ≡ true },
}

impl<S: BinarySync> Signaled<S> {
    /// Looks at the sync object of a take. There is none where it isn't signaled.
    pub fn look(syncs: &mut S, taken: Taken) -> Option<Signaled<S>>
        ensures point { IfSome result (λ x. x.point ≡ taken.given.point) }
        ensures number { IfSome result (λ x. x.number ≡ taken.number) }
    {
        let point = taken.given.point;
        let number = taken.number;
        if syncs.is_signaled(point, number) {
            Some(Signaled {
                point,
                number,
                of: PhantomData,
            })
        } else {
            None
        }
    }
}
