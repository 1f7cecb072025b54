//! The needs that an operation resolves.
ghost use Rattle.std.specs.Prelude.{◌≡◌, ◌<◌, ◌&&◌, All, if◌then◌else◌, length, nat_lt, nat_le, count_by};
ghost use Rattle.std.specs.Prelude.{true, false};
ghost use Rattle.std.specs.List.{list_any, position_or_len};
ghost use Rattle.vq_point_laws.specs.Points.{resolves};

use vq_spec::{Need, Plan};

/// Whether there is an operation of this number on another chain than a need's. It doesn't resolve the need then.
fn is_elsewhere(plan: &Plan, need: Need, op: u32) -> bool
    ensures { result ≡ true → resolves plan.now op need ≡ false }
{
    let _lawful = plan.script();
    if op >= plan.ops() {
        return false;
    }
    plan.op(op).chain != need.chain
}

/// Whether an operation resolves a need. Its chain is compared first: that takes less than a search in a chain.
fn resolves(plan: &Plan, need: Need, op: u32) -> bool
    requires { need.chain < length plan.now.chains }
    ensures { result ≡ resolves plan.now op need }
{
    if is_elsewhere(plan, need, op) {
        return false;
    }
    match plan.resolver(need.chain, need.value) {
        Some(found) => found == op,
        None => false,
    }
}

/// How many needs an operation resolves.
pub fn count_resolved(plan: &Plan, needs: &[Need], op: u32) -> usize
    requires { All (λ n. n.chain < length plan.now.chains) needs.now }
    ensures { result ≡ count_by (resolves plan.now op) needs.now }
{
    let mut count = 0;
    for need in needs {
        if resolves(plan, *need, op) {
            count += 1;
        }
    }
    count
}

/// The place of the first need that an operation resolves, or how many needs there are.
pub fn place_among(plan: &Plan, needs: &[Need], op: u32) -> usize
    requires { All (λ n. n.chain < length plan.now.chains) needs.now }
    ensures { result ≡ position_or_len (resolves plan.now op) needs.now }
{
    let mut place = 0;
    for need in needs {
        if resolves(plan, *need, op) {
            return place;
        }
        place += 1;
    }
    place
}

/// Whether a job waits for a need now: before its start for one from the first place on, after it for
/// one from a later place on; and an operation resolves it.
fn resolves_now(plan: &Plan, need: Need, op: u32, started: bool) -> bool
    requires { need.chain < length plan.now.chains }
    ensures { result ≡ ((if started then nat_lt 1 need.from else nat_le need.from 1) && resolves plan.now op need) }
{
    let now = if started {
        need.from > 1
    } else {
        need.from <= 1
    };
    now && resolves(plan, need, op)
}

/// Whether a job waits now for a need that an operation resolves.
pub fn any_resolved(plan: &Plan, needs: &[Need], op: u32, started: bool) -> bool
    requires { All (λ n. n.chain < length plan.now.chains) needs.now }
    ensures { result ≡ list_any (λ n. (if started then nat_lt 1 n.from else nat_le n.from 1)
        && resolves plan.now op n) needs.now }
{
    for need in needs {
        if resolves_now(plan, *need, op, started) {
            return true;
        }
    }
    false
}
