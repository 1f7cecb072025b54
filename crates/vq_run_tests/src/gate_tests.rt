//! Runs in which a gate holds actors, so that each answer but one is ruled out.
use crate::cases::{Case, ends_at};
use std::alloc::Global;
use std::hint;
use std::marker::Sync;
use std::sync::Wait;
use std::sync::atomic::{AtomicBool, Ordering};
use std::thread::Threads;
use vq_model::script::ActorName;
use vq_rings::Gate;
use vq_run::Status;

/// How often a held actor looks before the gate lets it go all the same.
const LOOKS: u32 = 100_000_000;

/// A turn of an actor.
#[derive(Clone, Copy)]
struct Coming {
    actor: ActorName,
    turn: u64,
}

impl Coming {
    /// Whether these are the same turn of the same actor.
    fn is(self, other: Coming) -> bool {
        let same = match (self.actor, other.actor) {
            (ActorName::Host, ActorName::Host) => true,
            (ActorName::Submit(p), ActorName::Submit(q)) => p == q,
            (ActorName::Ring(p), ActorName::Ring(q)) => p == q,
            _ => false,
        };
        same && self.turn == other.turn
    }
}

/// A gate that holds an actor at one turn until another has come to a turn.
#[derive(Drop)]
struct Holds {
    held: Coming,
    until: Coming,
    has_come: AtomicBool,
    was_met: AtomicBool,
}

impl Holds {
    /// A gate that nobody has come to.
    fn new(held: (ActorName, u64), until: (ActorName, u64)) -> Holds {
        Holds {
            held: Coming {
                actor: held.0,
                turn: held.1,
            },
            until: Coming {
                actor: until.0,
                turn: until.1,
            },
            has_come: AtomicBool::new(false),
            was_met: AtomicBool::new(false),
        }
    }

    /// Looks until the other has come, or gives up.
    fn hold(&self) {
        for _ in 0..LOOKS {
            if self.has_come.load(Ordering::SeqCst) {
                self.was_met.store(true, Ordering::SeqCst);
                return;
            }
            hint::spin_loop();
        }
    }

    /// Whether the held actor came, was let go by the other, and the gate didn't give up.
    fn was_met(&self) -> bool {
        self.was_met.load(Ordering::SeqCst)
    }
}

impl Gate for Holds {
    fn at(&self, actor: ActorName, turn: u64) {
        let now = Coming { actor, turn };
        if now.is(self.until) {
            self.has_come.store(true, Ordering::SeqCst);
        }
        if now.is(self.held) {
            self.hold();
        }
    }
}

/// Two gates, of which the first lets others go before the second holds anybody.
#[derive(Drop)]
struct HoldsTwice {
    first: Holds,
    second: Holds,
}

impl Gate for HoldsTwice {
    fn at(&self, actor: ActorName, turn: u64) {
        self.first.at(actor, turn);
        self.second.at(actor, turn);
    }
}

/// Whether a run with this gate is done and writes this text.
fn gives<'a, R: Threads + Wait + Sync, G: Gate>(
    rt: &R,
    alloc: Global,
    input: &'a [u8],
    text: &'a [u8],
    gate: &G,
) -> bool {
    ends_at(rt, alloc, &Case::new(&[], input, text, Status::Done), gate)
}

/// Whether a run gives this text, with an actor held at a turn until another has come to one.
fn gives_held<R: Threads + Wait + Sync>(
    rt: &R,
    alloc: Global,
    input: &[u8],
    text: &[u8],
    held: (ActorName, u64),
    until: (ActorName, u64),
) -> bool {
    let gate = Holds::new(held, until);
    gives(rt, alloc, input, text, &gate) && gate.was_met()
}

/// Two queues with a batch each, neither of which waits for the other.
const APART: &[u8] = b"queue P threaded
queue Q threaded
submit P
end
submit Q
end
";

#[test]
fn first_ring_waits_for_the_second(rt: HostRuntime) {
    let (first, second) = ((ActorName::Ring(0), 0), (ActorName::Ring(1), 0));
    assert!(rt; gives_held(&rt, rt.alloc(), APART, b"end\n", first, second));
}

#[test]
fn second_ring_waits_for_the_first(rt: HostRuntime) {
    let (first, second) = ((ActorName::Ring(0), 0), (ActorName::Ring(1), 0));
    assert!(rt; gives_held(&rt, rt.alloc(), APART, b"end\n", second, first));
}

/// A read beside the batch that signals what is read.
const READ: &[u8] = b"timeline A 0
queue P immediate
submit P
signal A 9
end
host read A
";

/// Whether a run gives this text, with the ring held until the host has come to its turn 4, and the host there until
/// the ring has come to its turn 2.
fn gives_held_twice<R: Threads + Wait + Sync>(
    rt: &R,
    alloc: Global,
    input: &[u8],
    text: &[u8],
) -> bool {
    let gate = HoldsTwice {
        first: Holds::new((ActorName::Ring(0), 0), (ActorName::Host, 4)),
        second: Holds::new((ActorName::Host, 4), (ActorName::Ring(0), 2)),
    };
    gives(rt, alloc, input, text, &gate) && gate.first.was_met() && gate.second.was_met()
}

#[test]
fn reads_see_a_signal_that_came_before(rt: HostRuntime) {
    // The host submits, takes a point, releases and binds, and reads from turn 4 on; the ring starts and signals.
    assert!(rt; gives_held_twice(&rt, rt.alloc(), READ, b"6 value 9\nend\n"));
}

#[test]
fn reads_miss_a_signal_that_comes_later(rt: HostRuntime) {
    // At turn 6 the host has started the read and answered it.
    let (ring, host) = ((ActorName::Ring(0), 0), (ActorName::Host, 6));
    assert!(rt; gives_held(&rt, rt.alloc(), READ, b"6 value 0\nend\n", ring, host));
}
