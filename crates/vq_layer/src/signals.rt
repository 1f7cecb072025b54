//! Taking, installing and cancelling the operations of a batch.
ghost use Rattle.std.specs.Prelude.{◌≡◌, ◌+◌, ◌<◌, ◌≤◌, [], None, IfErr, OnErr, OnOk, length};
ghost use Rattle.std.specs.Vec.{vec_capacity, vec_len};
ghost use Rattle.vq_live.specs.Calls.{LacksRoom};
ghost use Rattle.vq_layer.specs.Layer.{live_at, AreBare};
ghost use Rattle.vq_layer.specs.Calls.{MayLackOf};
ghost use Rattle.vq_layer.specs.Takes.{first_take_fault, take_in, taken_all, signal_in, signals_all, AreApart, AreKnown};
ghost use Rattle.vq_layer.specs.Takes.{reserve_in, reserved_all, unreserved_all, IsReserved, AreReserved, lack_of};
ghost use Rattle.vq_layer.specs.Installs.{install_in, installed_all, cancel_in, cancelled_all, is_next, first_behind};

use crate::{Signal, SubmitFault, Wanted};
use vq_live::{LiveTimeline, ReserveFault, TakeFault};

// The first of these signals for which no point would be given, memory and numbers aside.
#[tactic(auto, using(crate::proofs::Lookups::read_live, std::proofs::lemmas::List::set_past))]
pub(crate) fn first_take_fault(
    timelines: &[LiveTimeline],
    signals: &[Wanted],
) -> Option<SubmitFault>
    requires known { AreKnown timelines.now signals.now }
    ensures { result ≡ first_take_fault timelines.now signals.now }
{
    for w in signals {
        let timeline = w.timeline;
        if let Some(fault) = timelines[timeline as usize].take_fault(w.value) {
            return Some(SubmitFault::NotTaken { timeline, fault });
        }
    }
    None
}

// Reserves so many takes of a timeline.
#[tactic(auto, using(crate::proofs::Lookups::read_live, std::proofs::lemmas::List::set_past))]
fn reserve_in(timelines: &mut [LiveTimeline], n: u32, count: usize) -> Result<(), ReserveFault>
    requires exists { n < length timelines.old }
    ensures after { OnOk result (timelines.new ≡ reserve_in timelines.old n count) }
    ensures fault { IfErr result (LacksRoom (live_at timelines.old n) count) }
    ensures unchanged { OnErr result (timelines.new ≡ timelines.old) }
{
    timelines[n as usize].reserve(count)
}

// Reserves nothing for these signals, the last one first.
fn unreserve_all(timelines: &mut [LiveTimeline], signals: &[Wanted])
    ensures { timelines.new ≡ unreserved_all timelines.old signals.now }
{
    let count = signals.len();
    for done in 0..count {
        unreserve_in(timelines, signals[count - 1 - done].timeline);
    }
}

// Reserves nothing of a timeline.
#[tactic(auto, using(crate::proofs::Lookups::read_live, std::proofs::lemmas::List::set_past))]
fn unreserve_in(timelines: &mut [LiveTimeline], n: u32)
    ensures { timelines.new ≡ reserve_in timelines.old n 0 }
{
    if (n as usize) < timelines.len() {
        let _ = timelines[n as usize].reserve(0);
    }
}

// Reserves a take for each of these signals, or none.
pub(crate) fn reserve_all(
    timelines: &mut [LiveTimeline],
    signals: &[Wanted],
) -> Result<(), SubmitFault>
    requires bare { AreBare timelines.old }
    requires apart { AreApart signals.now }
    requires known { AreKnown timelines.old signals.now }
    ensures after { OnOk result (timelines.new ≡ reserved_all timelines.old signals.now) }
    ensures fault { IfErr result (MayLackOf timelines.old signals.now) }
    ensures unchanged { OnErr result (timelines.new ≡ timelines.old) }
{
    for i in 0..signals.len() {
        let timeline = signals[i].timeline;
        if let Err(fault) = reserve_in(timelines, timeline, 1) {
            unreserve_all(timelines, &signals[..i]);
            return Err(lack(timeline, fault));
        }
    }
    Ok(())
}

// What a batch lacks whose take can't be reserved.
fn lack(timeline: u32, fault: ReserveFault) -> SubmitFault
    ensures { result ≡ lack_of timeline fault }
{
    match fault {
        ReserveFault::Full => SubmitFault::NotTaken {
            timeline,
            fault: TakeFault::Full,
        },
        ReserveFault::NoMemory => SubmitFault::NoMemory,
    }
}

// Takes a point for a value of a timeline, as is reserved.
#[tactic(auto, using(crate::proofs::Lookups::read_live, std::proofs::lemmas::List::set_past))]
fn take_in(timelines: &mut [LiveTimeline], wanted: Wanted) -> Signal
    requires { IsReserved timelines.old wanted }
    ensures signal { result ≡ signal_in timelines.old wanted }
    ensures after { timelines.new ≡ take_in timelines.old wanted }
{
    let timeline = wanted.timeline;
    match timelines[timeline as usize].take(wanted.value) {
        Ok(given) => Signal { timeline, given },
        Err(_) => unreachable!(),
    }
}

// Takes a point for each of these signals, as is reserved, in order, and lists the operations, for which there is room.
pub(crate) fn take_all(timelines: &mut [LiveTimeline], wanted: &[Wanted], signals: &mut Vec<Signal>)
    requires none { signals.old.items ≡ [] }
    requires room { length wanted.now ≤ vec_capacity signals.old }
    requires apart { AreApart wanted.now }
    requires reserved { AreReserved timelines.old wanted.now }
    ensures after { timelines.new ≡ taken_all timelines.old wanted.now }
    ensures listed { signals.new.items ≡ signals_all timelines.old wanted.now }
{
    for w in wanted {
        let signal = take_in(timelines, *w);
        signals.push_reserved(signal);
    }
}
// Takes one operation back.
#[tactic(auto, using(crate::proofs::Lookups::read_live, std::proofs::lemmas::List::set_past))]
fn cancel_in(timelines: &mut [LiveTimeline], signal: Signal)
    ensures { timelines.new ≡ cancel_in timelines.old signal }
{
    if (signal.timeline as usize) < timelines.len() {
        let _ = timelines[signal.timeline as usize].cancel(signal.given);
    }
}

// Takes these operations back, the last one first.
pub(crate) fn cancel_all(timelines: &mut [LiveTimeline], signals: &[Signal])
    ensures { timelines.new ≡ cancelled_all timelines.old signals.now }
{
    let count = signals.len();
    for done in 0..count {
        cancel_in(timelines, signals[count - 1 - done]);
    }
}

// Installs one operation.
#[tactic(auto, using(crate::proofs::Lookups::read_live, std::proofs::lemmas::List::set_past))]
fn install_in(timelines: &mut [LiveTimeline], signal: Signal)
    ensures { timelines.new ≡ install_in timelines.old signal }
{
    if (signal.timeline as usize) < timelines.len() {
        let _ = timelines[signal.timeline as usize].install(signal.given);
    }
}

// Installs these operations, in order.
pub(crate) fn install_all(timelines: &mut [LiveTimeline], signals: &[Signal])
    ensures { timelines.new ≡ installed_all timelines.old signals.now }
{
    for s in signals {
        install_in(timelines, *s);
    }
}

// Whether an operation is the next of its timeline to be installed.
#[tactic(auto, using(crate::proofs::Lookups::read_live, std::proofs::lemmas::List::set_past))]
fn is_next(timelines: &[LiveTimeline], signal: Signal) -> bool
    ensures { result ≡ is_next timelines.now signal }
{
    if (signal.timeline as usize) >= timelines.len() {
        return false;
    }
    match timelines[signal.timeline as usize].least_taken() {
        None => false,
        Some(next) => next.value == signal.given.value && next.point == signal.given.point,
    }
}

// The first operation that isn't the next of its timeline.
pub(crate) fn first_behind(timelines: &[LiveTimeline], signals: &[Signal]) -> Option<Signal>
    ensures { result ≡ first_behind timelines.now signals.now }
{
    for s in signals {
        if !is_next(timelines, *s) {
            return Some(*s);
        }
    }
    None
}
