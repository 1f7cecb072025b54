//! Sets of the fifteen lanes of a number, as bits by their places.
ghost use Rattle.std.specs.Prelude.{◌≡◌, ◌<◌, ◌&&◌, ◌||◌, ◌==◌, not, ℕ};
ghost use Rattle.vq_capture_clocks.specs.LaneSets.{has_lane};

/// Whether a place is in a set.
#[inline(always)]
pub fn has_lane(set: u16, place: usize) -> bool
    requires { place < 16 }
    ensures { result ≡ has_lane set place }
{
    set >> place & 1 == 1
}

/// The set of one place.
#[inline(always)]
#[tactic(auto, using(crate::proofs::LaneBits::in_single))]
pub fn lane_at(place: usize) -> u16
    requires { place < 16 }
    ensures { (p : ℕ) → has_lane result p ≡ (p == place) }
{
    1 << place
}

/// The places of two sets.
#[inline(always)]
#[tactic(auto, using(crate::proofs::LaneBits::in_both))]
pub fn both(first: u16, second: u16) -> u16
    ensures { (p : ℕ) → has_lane result p ≡ (has_lane first p && has_lane second p) }
{
    first & second
}

/// The places of either set.
#[inline(always)]
#[tactic(auto, using(crate::proofs::LaneBits::in_either))]
pub fn either(first: u16, second: u16) -> u16
    ensures { (p : ℕ) → has_lane result p ≡ (has_lane first p || has_lane second p) }
{
    first | second
}

/// The places of a set that aren't in another one.
#[inline(always)]
#[tactic(auto, using(crate::proofs::LaneBits::in_rest))]
pub fn without(set: u16, other: u16) -> u16
    ensures { (p : ℕ) → has_lane result p ≡ (has_lane set p && not (has_lane other p)) }
{
    set ^ (set & other)
}
