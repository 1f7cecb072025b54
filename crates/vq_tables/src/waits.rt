//! The needs that hold back what comes after so many commands.
ghost use Rattle.std.specs.Prelude.{◌≡◌, ◌<◌, ◌||◌, ◌&&◌, ◌+◌, ◌-◌, All, length, nat_lt, nat_le};
ghost use Rattle.std.specs.List.{list_all, list_any};
ghost use Rattle.vq_model.specs.Machine.{is_reached};
ghost use Rattle.vq_spec.specs.SlowProgress.{payload_in};

use vq_spec::{Need, is_reached};

/// Whether a need is reached, if it holds back what comes after so many commands.
fn is_passed(payloads: &[u64], need: Need, done: usize) -> bool
    requires { need.chain < length payloads.now }
    ensures { result ≡ (nat_lt done (need.from - 1) || is_reached (payload_in payloads.now) need) }
{
    done < need.from.saturating_sub(1) as usize || is_reached(payloads, need)
}

/// Whether all needs are reached that hold back what comes after so many commands.
pub fn reached_after(payloads: &[u64], needs: &[Need], done: usize) -> bool
    requires { All (λ n. n.chain < length payloads.now) needs.now }
    ensures { result ≡ list_all (λ n. nat_lt done (n.from - 1) || is_reached (payload_in payloads.now) n) needs.now }
{
    for need in needs {
        if !is_passed(payloads, *need, done) {
            return false;
        }
    }
    true
}

/// Whether a need is reached that holds back what comes after so many commands.
fn is_let_through(payloads: &[u64], need: Need, done: usize) -> bool
    requires { need.chain < length payloads.now }
    ensures { result ≡ (nat_le need.from (done + 1) && is_reached (payload_in payloads.now) need) }
{
    need.from.saturating_sub(1) as usize <= done && is_reached(payloads, need)
}

/// Whether one of the needs is reached that hold back what comes after so many commands.
pub fn one_reached_after(payloads: &[u64], needs: &[Need], done: usize) -> bool
    requires { All (λ n. n.chain < length payloads.now) needs.now }
    ensures { result ≡ list_any (λ n. nat_le n.from (done + 1) && is_reached (payload_in payloads.now) n) needs.now }
{
    for need in needs {
        if is_let_through(payloads, *need, done) {
            return true;
        }
    }
    false
}
