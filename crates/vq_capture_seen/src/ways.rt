//! Whether a write is delivered to an access, by one way down the points between them.
ghost use Rattle.std.specs.Prelude.{◌≡◌, ◌&&◌, ◌||◌, IfOk, map, not};
ghost use Rattle.std.specs.List.{list_all, list_any};
ghost use Rattle.vq_capture_seen.specs.Ways.{delivers, follows, is_delivered, is_made, is_reached};
ghost use Rattle.vq_capture_seen.specs.Ways.{itself, leads};

use crate::leads::leads;
use crate::scopes::{makes_available, makes_visible};
use crate::spot::Spot;
use std::alloc::{AllocError, Global};

fn is_made(x: &Spot, p: &Spot) -> bool
    ensures { result ≡ is_made x.now p.now }
{
    leads(x, p) && makes_available(p, x)
}

/// Whether one of some points is ordered directly before one.
fn any_leads(found: &[&Spot], w: &Spot) -> bool
    ensures { result ≡ list_any (λ z. leads z w.now) (map (λ z. z.now) found.now) }
{
    for z in found {
        if leads(z, w) {
            return true;
        }
    }
    false
}

fn follows(x: &Spot, found: &[&Spot], w: &Spot) -> bool
    ensures { result ≡ follows x.now (map (λ z. z.now) found.now) w.now }
{
    is_made(x, w) || any_leads(found, w)
}

/// Whether a point at which a write is available delivers it.
fn delivers(reads: bool, y: &Spot, z: &Spot) -> bool
    ensures { result ≡ delivers reads y.now z.now }
{
    leads(z, y) && (!reads || makes_visible(z, y))
}

/// The point of a write that is available as it comes.
fn itself<'a>(alloc: Global, x: &'a Spot) -> Result<Vec<&'a Spot>, AllocError>
    ensures { IfOk result (λ found. map (λ z. z.now) found.items ≡ itself x.now) }
{
    let mut found = Vec::new(alloc);
    if x.stage.is_none() {
        found.push(x)?;
    }
    Ok(found)
}

/// Whether a point delivers that is found on the way down some points.
fn is_reached(
    alloc: Global,
    reads: bool,
    x: &Spot,
    y: &Spot,
    behind: &[Spot],
) -> Result<bool, AllocError>
    ensures { IfOk result (λ test. test ≡ is_reached reads x.now y.now (itself x.now) behind.now) }
{
    let mut found = itself(alloc, x)?;
    for w in behind {
        if follows(x, &found, w) {
            if delivers(reads, y, w) {
                return Ok(true);
            }
            found.push(w)?;
        }
    }
    Ok(false)
}

/// Whether a write that is available as it comes delivers itself, or what it is ordered before makes it available.
fn is_delivered_at_once(reads: bool, x: &Spot, y: &Spot) -> bool
    ensures { result ≡ ((not reads && is_made x.now y.now) || list_any (delivers reads y.now) (itself x.now)) }
{
    (!reads && is_made(x, y)) || (x.stage.is_none() && delivers(reads, y, x))
}

/// Whether a write is delivered to an access, by the points behind it.
fn is_delivered(
    alloc: Global,
    reads: bool,
    x: &Spot,
    behind: &[Spot],
    y: &Spot,
) -> Result<bool, AllocError>
    ensures { IfOk result (λ test. test ≡ is_delivered reads x.now behind.now y.now) }
{
    if is_delivered_at_once(reads, x, y) {
        return Ok(true);
    }
    is_reached(alloc, reads, x, y, behind)
}

/// Whether a write is delivered to each point of an access.
pub fn all_delivered(
    alloc: Global,
    reads: bool,
    x: &Spot,
    behind: &[Spot],
    points: &[Spot],
) -> Result<bool, AllocError>
    ensures { IfOk result (λ test. test ≡ list_all (is_delivered reads x.now behind.now) points.now) }
{
    for y in points {
        if !is_delivered(alloc, reads, x, behind, y)? {
            return Ok(false);
        }
    }
    Ok(true)
}
