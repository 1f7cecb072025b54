//! What a batch that is taken back gives back: its numbers, if none is used.
ghost use Rattle.std.specs.Prelude.{◌≡◌};
ghost use Rattle.vq_layer.specs.Names.{is_last_signal, is_last_wait, signals_name, waits_name, first_used_signal, first_used_wait};
ghost use Rattle.vq_layer.specs.Names.{without_signal, without_wait, kinds_unsignaled, kinds_unwaited};

use crate::naming::kind_at;
use crate::{Kind, Signal, Wait};

// Whether one of these signals is of this timeline.
pub(crate) fn signals_name(n: u32, signals: &[Signal]) -> bool
    ensures { result ≡ signals_name n signals.now }
{
    for s in signals {
        if s.timeline == n {
            return true;
        }
    }
    false
}

// Whether one of these waits is of this timeline.
pub(crate) fn waits_name(n: u32, waits: &[Wait]) -> bool
    ensures { result ≡ waits_name n waits.now }
{
    for w in waits {
        if w.wanted.timeline == n {
            return true;
        }
    }
    false
}

// Whether a signal is the last one of its binary semaphore, and isn't taken.
fn is_last_signal(kind: Kind, value: u64) -> bool
    ensures { result ≡ is_last_signal kind value }
{
    match kind {
        Kind::Closed => true,
        Kind::Timeline => true,
        Kind::Binary { signals, taken } => signals == value && taken < value,
    }
}

// Whether a wait took the last signal of its binary semaphore, one of its own batch aside.
fn is_last_wait(kind: Kind, value: u64, here: bool) -> bool
    ensures { result ≡ is_last_wait kind value here }
{
    match kind {
        Kind::Closed => true,
        Kind::Timeline => true,
        Kind::Binary { signals, taken } => taken == value && (here || signals == value),
    }
}

// The first of these signals that is used.
pub(crate) fn first_used_signal(kinds: &[Kind], signals: &[Signal]) -> Option<u32>
    ensures { result ≡ first_used_signal kinds.now signals.now }
{
    for s in signals {
        if !is_last_signal(kind_at(kinds, s.timeline), s.given.value) {
            return Some(s.timeline);
        }
    }
    None
}

// The first of these waits, of a batch with these signals, that is used.
pub(crate) fn first_used_wait(kinds: &[Kind], signals: &[Signal], waits: &[Wait]) -> Option<u32>
    ensures { result ≡ first_used_wait kinds.now signals.now waits.now }
{
    for w in waits {
        let n = w.wanted.timeline;
        let here = signals_name(n, signals);
        if !is_last_wait(kind_at(kinds, n), w.wanted.value, here) {
            return Some(n);
        }
    }
    None
}

// A count without its last signal.
fn without_signal(kind: Kind) -> Kind
    ensures { result ≡ without_signal kind }
{
    match kind {
        Kind::Closed => Kind::Closed,
        Kind::Timeline => Kind::Timeline,
        Kind::Binary { signals, taken } => Kind::Binary {
            signals: signals.saturating_sub(1),
            taken,
        },
    }
}

// A count without its last wait.
fn without_wait(kind: Kind) -> Kind
    ensures { result ≡ without_wait kind }
{
    match kind {
        Kind::Closed => Kind::Closed,
        Kind::Timeline => Kind::Timeline,
        Kind::Binary { signals, taken } => Kind::Binary {
            signals,
            taken: taken.saturating_sub(1),
        },
    }
}

// Counts these signals no more.
#[tactic(auto, using(crate::proofs::Lookups::read_kind, std::proofs::lemmas::List::set_past))]
pub(crate) fn uncount_signals(kinds: &mut [Kind], signals: &[Signal])
    ensures { kinds.new ≡ kinds_unsignaled kinds.old signals.now }
{
    for s in signals {
        if (s.timeline as usize) < kinds.len() {
            kinds[s.timeline as usize] = without_signal(kinds[s.timeline as usize]);
        }
    }
}

// Counts these waits no more.
#[tactic(auto, using(crate::proofs::Lookups::read_kind, std::proofs::lemmas::List::set_past))]
pub(crate) fn uncount_waits(kinds: &mut [Kind], waits: &[Wait])
    ensures { kinds.new ≡ kinds_unwaited kinds.old waits.now }
{
    for w in waits {
        if (w.wanted.timeline as usize) < kinds.len() {
            kinds[w.wanted.timeline as usize] = without_wait(kinds[w.wanted.timeline as usize]);
        }
    }
}
