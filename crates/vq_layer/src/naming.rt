//! What a batch names, and why it can't.
ghost use Rattle.std.specs.Prelude.{◌≡◌, IfOk};
ghost use Rattle.vq_layer.specs.Layer.{kind_at};
ghost use Rattle.vq_layer.specs.Names.{is_named, wait_fault, first_wait_fault, count_fault, signal_fault, first_signal_fault};
ghost use Rattle.vq_layer.specs.Names.{wait_value, signal_value, wait_named, waits_named, signal_named};
ghost use Rattle.vq_layer.specs.Names.{with_wait, with_signal, kinds_waited, kinds_signaled};

use crate::{Kind, SubmitFault, Wait, Wanted};
use std::alloc::{AllocError, Global};

// What a number stands for.
pub(crate) fn kind_at(kinds: &[Kind], n: u32) -> Kind
    ensures { result ≡ kind_at kinds.now n }
{
    match kinds.get(n as usize) {
        Some(kind) => *kind,
        None => Kind::Closed,
    }
}

// Whether one of these is of this timeline.
fn is_named(n: u32, wanted: &[Wanted]) -> bool
    ensures { result ≡ is_named n wanted.now }
{
    for w in wanted {
        if w.timeline == n {
            return true;
        }
    }
    false
}

// Why a wait can't be submitted.
fn wait_fault(kind: Kind, timeline: u32, again: bool) -> Option<SubmitFault>
    ensures { result ≡ wait_fault kind timeline again }
{
    match kind {
        Kind::Closed => Some(SubmitFault::NoTimeline { timeline }),
        Kind::Timeline => None,
        Kind::Binary { signals, taken } => {
            if again {
                return Some(SubmitFault::Repeated { timeline });
            }
            if signals == taken {
                return Some(SubmitFault::Unsignaled { timeline });
            }
            None
        }
    }
}

// Why the first of these waits that can't be submitted can't.
pub(crate) fn first_wait_fault(kinds: &[Kind], waits: &[Wanted]) -> Option<SubmitFault>
    ensures { result ≡ first_wait_fault kinds.now waits.now }
{
    for i in 0..waits.len() {
        let n = waits[i].timeline;
        let again = is_named(n, &waits[i + 1..]);
        if let Some(fault) = wait_fault(kind_at(kinds, n), n, again) {
            return Some(fault);
        }
    }
    None
}

// Why a binary semaphore can't be signaled once more.
fn count_fault(signals: u64, taken: u64, timeline: u32, waited: bool) -> Option<SubmitFault>
    ensures { result ≡ count_fault signals taken timeline waited }
{
    if signals == u64::MAX {
        return Some(SubmitFault::Signaled { timeline });
    }
    if signals == taken {
        return None;
    }
    if waited {
        return None;
    }
    Some(SubmitFault::Signaled { timeline })
}

// Why a signal can't be submitted.
fn signal_fault(kind: Kind, timeline: u32, again: bool, waited: bool) -> Option<SubmitFault>
    ensures { result ≡ signal_fault kind timeline again waited }
{
    match kind {
        Kind::Closed => Some(SubmitFault::NoTimeline { timeline }),
        Kind::Timeline => None,
        Kind::Binary { signals, taken } => {
            if again {
                return Some(SubmitFault::Repeated { timeline });
            }
            count_fault(signals, taken, timeline, waited)
        }
    }
}

// Why the first of these signals that can't be submitted with these waits can't.
pub(crate) fn first_signal_fault(
    kinds: &[Kind],
    waits: &[Wanted],
    signals: &[Wanted],
) -> Option<SubmitFault>
    ensures { result ≡ first_signal_fault kinds.now waits.now signals.now }
{
    for i in 0..signals.len() {
        let n = signals[i].timeline;
        let again = is_named(n, &signals[i + 1..]);
        let waited = is_named(n, waits);
        if let Some(fault) = signal_fault(kind_at(kinds, n), n, again, waited) {
            return Some(fault);
        }
    }
    None
}

// The value that a wait stands for.
fn wait_value(kind: Kind, value: u64) -> u64
    ensures { result ≡ wait_value kind value }
{
    match kind {
        Kind::Closed => value,
        Kind::Timeline => value,
        Kind::Binary { signals, taken: _ } => signals,
    }
}

// The value that a signal stands for.
fn signal_value(kind: Kind, value: u64) -> u64
    ensures { result ≡ signal_value kind value }
{
    match kind {
        Kind::Closed => value,
        Kind::Timeline => value,
        Kind::Binary { signals, taken: _ } => signals.saturating_add(1),
    }
}

// A wait with its value, which holds nothing yet.
fn wait_named(kinds: &[Kind], wanted: Wanted) -> Wait
    ensures { result ≡ wait_named kinds.now wanted }
{
    let timeline = wanted.timeline;
    let value = wait_value(kind_at(kinds, timeline), wanted.value);
    Wait {
        wanted: Wanted { timeline, value },
        held: None,
    }
}

// These waits with their values.
pub(crate) fn waits_named(
    alloc: Global,
    kinds: &[Kind],
    wanted: &[Wanted],
) -> Result<Vec<Wait>, AllocError>
    ensures { IfOk result (λ waits. waits.items ≡ waits_named kinds.now wanted.now) }
{
    let mut waits = Vec::with_capacity(alloc, wanted.len())?;
    for w in wanted {
        waits.push(wait_named(kinds, *w))?;
    }
    Ok(waits)
}

// A signal with its value.
pub(crate) fn signal_named(kinds: &[Kind], wanted: Wanted) -> Wanted
    ensures { result ≡ signal_named kinds.now wanted }
{
    let timeline = wanted.timeline;
    let value = signal_value(kind_at(kinds, timeline), wanted.value);
    Wanted { timeline, value }
}

// What a wait leaves of a count: it takes the signal.
pub(crate) fn with_wait(kind: Kind) -> Kind
    ensures { result ≡ with_wait kind }
{
    match kind {
        Kind::Closed => Kind::Closed,
        Kind::Timeline => Kind::Timeline,
        Kind::Binary { signals, taken: _ } => Kind::Binary {
            signals,
            taken: signals,
        },
    }
}

// What a signal leaves of a count.
fn with_signal(kind: Kind) -> Kind
    ensures { result ≡ with_signal kind }
{
    match kind {
        Kind::Closed => Kind::Closed,
        Kind::Timeline => Kind::Timeline,
        Kind::Binary { signals, taken } => Kind::Binary {
            signals: signals.saturating_add(1),
            taken,
        },
    }
}

// Counts these waits.
#[tactic(auto, using(crate::proofs::Lookups::read_kind, std::proofs::lemmas::List::set_past))]
pub(crate) fn count_waits(kinds: &mut [Kind], waits: &[Wanted])
    ensures { kinds.new ≡ kinds_waited kinds.old waits.now }
{
    for w in waits {
        if (w.timeline as usize) < kinds.len() {
            kinds[w.timeline as usize] = with_wait(kinds[w.timeline as usize]);
        }
    }
}

// Counts these signals.
#[tactic(auto, using(crate::proofs::Lookups::read_kind, std::proofs::lemmas::List::set_past))]
pub(crate) fn count_signals(kinds: &mut [Kind], signals: &[Wanted])
    ensures { kinds.new ≡ kinds_signaled kinds.old signals.now }
{
    for w in signals {
        if (w.timeline as usize) < kinds.len() {
            kinds[w.timeline as usize] = with_signal(kinds[w.timeline as usize]);
        }
    }
}
