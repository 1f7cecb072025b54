//! The access round a core.
ghost use Rattle.std.specs.Prelude.{◌≡◌};
ghost use Rattle.vq_actor.specs.Collections.{emptied};
ghost use Rattle.vq_actor.specs.Waits.{need_found};
ghost use Rattle.vq_core_run.specs.CoreAccesses.{IsEmptied, recent_of};
ghost use Rattle.vq_core_run.specs.Seats.{IsSeated};

use crate::looks::{
    collected, found, is_bound, keeps, make, past_value, point_of, taken, unbound_before,
};
use vq_actor::{Access, Step, Tracker};
use vq_core::Core;
use vq_model::plan::{Answer, Event};
use vq_model::script::ActorName;
use vq_order::Ordered;
use vq_turns::look::Found;
use vq_turns::outcome::Want;

/// The last call, where it matters for the next.
#[derive(Clone, Copy)]
pub enum Last {
    Other,
    /// A collection on this chain that found nothing.
    Collected { chain: u32 },
    /// A look for the need of this index that found a pending operation with its point.
    FoundAt { need: usize, op: u32, point: u32 },
}

/// The chain of a collection that found nothing, 0 after another call.
fn emptied_chain(last: Last) -> u32
    ensures { result ≡ emptied (recent_of last) }
{
    match last {
        Last::Collected { chain } => chain,
        Last::Other => 0,
        Last::FoundAt { .. } => 0,
    }
}

/// The need for which a pending operation was found last, 0 after another call.
fn need_found(last: Last) -> usize
    ensures { result ≡ need_found (recent_of last) }
{
    match last {
        Last::FoundAt { need, .. } => need,
        Last::Other => 0,
        Last::Collected { .. } => 0,
    }
}

/// A core with the place of one actor.
#[derive(Drop)]
pub struct CoreAccess<'a> {
    core: &'a mut Core,
    seat: &'a mut Tracker,
    actor: ActorName,
    last: Last,
    ghost seated: { IsSeated core.now actor seat.now },
    ghost emptied: { IsEmptied core.now (recent_of last) },
}

impl<'a> Access for CoreAccess<'a> {
    ghost use Rattle.std.specs.Prelude.{[], ◌∷◌};
    ghost use Rattle.vq_core_run.specs.CoreAccesses.{meaning_of, recent_of, shown_by};

    ghost meaning = { λ x. meaning_of (x.core.ghost_name ∷ x.seat.ghost_name ∷ []) x.core.now x.actor
        x.seat.now.place (recent_of x.last) };

    ghost shows = { λ x. shown_by x.core.now };

    fn ordered(&self) -> &Ordered {
        self.core.ordered()
    }

    fn place(&self) -> &Tracker {
        self.seat
    }

    fn submitted(&mut self, job: u32) -> bool {
        self.last = Last::Other;
        keeps(self.core);
        let is = self.core.is_submitted(job);
        if is {
            self.seat.forward();
        }
        is
    }

    fn released(&mut self, job: u32) -> bool {
        self.last = Last::Other;
        keeps(self.core);
        let is = self.core.is_released(job);
        if is {
            self.seat.forward();
        }
        is
    }

    fn finished(&mut self, job: u32) -> bool {
        self.last = Last::Other;
        keeps(self.core);
        let is = self.core.is_finished(job);
        if is {
            self.seat.forward();
        }
        is
    }

    fn bound(&mut self, op: u32) -> bool {
        self.last = Last::Other;
        keeps(self.core);
        let is = is_bound(self.core, op);
        if is {
            self.seat.forward();
        }
        is
    }

    fn find(&mut self, need: usize, chain: u32, value: u64) -> Found {
        keeps(self.core);
        let found = found(self.core, chain, value);
        match found {
            Found::Past => {
                self.last = Last::Other;
                self.seat.pass();
            }
            Found::Pending { op, point } => self.last = Last::FoundAt { need, op, point },
            Found::NotYet { .. } => self.last = Last::Other,
        }
        found
    }

    fn past(&mut self, chain: u32, wanted: u64) -> u64 {
        self.last = Last::Other;
        keeps(self.core);
        let past = past_value(self.core, chain);
        self.seat.see(wanted, past);
        past
    }

    fn submit(&mut self, job: u32) -> Event {
        let event = Event::Submit { job };
        make(self.core, event);
        self.last = Last::Other;
        self.seat.forward();
        event
    }

    fn collect(&mut self, chain: u32) -> Option<Event> {
        match collected(self.core, chain) {
            Some(event) => {
                make(self.core, event);
                self.last = Last::Other;
                Some(event)
            }
            None => {
                self.last = Last::Collected { chain };
                None
            }
        }
    }

    fn take(&mut self, op: u32) -> Step {
        keeps(self.core);
        let event = taken(self.core, op, emptied_chain(self.last));
        make(self.core, event);
        self.last = Last::Other;
        self.seat.forward();
        Ok(event)
    }

    fn release(&mut self, job: u32) -> Step {
        let event = Event::Release { job };
        make(self.core, event);
        self.last = Last::Other;
        self.seat.forward();
        Ok(event)
    }

    fn bind(&mut self, op: u32) -> Step {
        self.last = Last::Other;
        if let Some(op) = unbound_before(self.core, op) {
            return Err(Want::Next { op });
        }
        let point = point_of(self.core, op).unwrap_or(0);
        let event = Event::Bind { op, point };
        make(self.core, event);
        self.seat.forward();
        Ok(event)
    }

    fn refer(&mut self, actor: ActorName, point: u32, op: u32) -> Step {
        let event = Event::Refer { actor, point, op };
        make(self.core, event);
        self.seat.refer(need_found(self.last), point, op);
        self.last = Last::Other;
        Ok(event)
    }

    fn look(&mut self, actor: ActorName, point: u32, op: u32) -> Step {
        self.last = Last::Other;
        if !self.core.is_signaled(op) {
            return Err(Want::Signaled { op });
        }
        let event = Event::Look { actor, point, op };
        make(self.core, event);
        self.seat.meet();
        Ok(event)
    }

    fn unrefer(&mut self, actor: ActorName, point: u32, op: u32) -> Step {
        let event = Event::Unref { actor, point, op };
        make(self.core, event);
        self.last = Last::Other;
        self.seat.give_back();
        Ok(event)
    }

    fn start(&mut self, job: u32) -> Event {
        let event = Event::Start { job };
        make(self.core, event);
        self.last = Last::Other;
        self.seat.forward();
        event
    }

    fn apply(&mut self, job: u32, command: u32) -> Step {
        let event = Event::Apply { job, command };
        make(self.core, event);
        self.last = Last::Other;
        self.seat.forward();
        Ok(event)
    }

    fn signal(&mut self, op: u32) -> Step {
        self.last = Last::Other;
        if !is_bound(self.core, op) {
            return Err(Want::Bound { op });
        }
        let event = Event::Signal { op };
        make(self.core, event);
        self.seat.forward();
        Ok(event)
    }

    fn finish(&mut self, job: u32) -> Event {
        let event = Event::Finish { job };
        make(self.core, event);
        self.last = Last::Other;
        self.seat.forward();
        event
    }

    fn answer(&mut self, job: u32, answer: Answer) -> Event {
        let event = Event::Answer { job, answer };
        make(self.core, event);
        self.last = Last::Other;
        self.seat.answer();
        event
    }
}

impl<'a> CoreAccess<'a> {
    ghost use Rattle.std.specs.Prelude.{[], ◌∷◌};
    ghost use Rattle.vq_actor.specs.Meanings.{Other};
    ghost use Rattle.vq_core_run.specs.CoreAccesses.{meaning_of};

    /// An access of an actor at its place.
    pub(crate) fn new(core: &'a mut Core, seat: &'a mut Tracker, actor: ActorName) -> CoreAccess<'a>
        requires { IsSeated core.old actor seat.old }
        ensures meaning { ⟦<CoreAccess<'a> as Access>⟧.meaning result ≡ meaning_of
            (core.entry.ghost_name ∷ seat.entry.ghost_name ∷ []) core.old actor seat.old.place Other }
        ensures keeps_core { result.core.ghost_name ≡ core.entry.ghost_name }
        ensures keeps_seat { result.seat.ghost_name ≡ seat.entry.ghost_name }
    {
        CoreAccess {
            core,
            seat,
            actor,
            last: Last::Other,
        }
    }
}
