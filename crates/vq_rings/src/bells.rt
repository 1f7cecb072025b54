//! Bells, at which blocked actors wait, the calls of those who move, and the beds on which threads sleep.
//!
//! Source: this project's own.
use crate::actors::{Actors, CALLER};
use crossbeam_utils::sync::{EventCount, Key};
use std::alloc::{AllocError, Global};
use std::sync::atomic::AtomicU64;
use std::sync::atomic::Ordering::SeqCst;
use vq_model::plan::Event;
use vq_turns::outcome::Want;

/// How many bells each kind of thing has. Two things of a kind whose numbers differ by a multiple of this share one, so
/// a ring may call somebody who goes on waiting.
const EACH: u32 = 64;

/// Where the bells begin: of submitted batches, of released ones, of bound operations, of signaled ones, of finished
/// jobs; then the bell of the turn over the buffers, and those that are rung with each bound and each signaled operation.
const SUBMITTED: u32 = 0;

const RELEASED: u32 = EACH;

const BOUND: u32 = 2 * EACH;

const SIGNALED: u32 = 3 * EACH;

const FINISHED: u32 = 4 * EACH;

const MEMORY: u32 = 5 * EACH;

const ANY_BOUND: u32 = 5 * EACH + 1;

const ANY_SIGNALED: u32 = 5 * EACH + 2;

const ALL: u32 = 5 * EACH + 3;

/// A bell, by its place among the bells of a run.
#[derive(Clone, Copy)]
pub(crate) struct Place {
    index: u32,
}

impl Place {
    /// The bells that are rung with each bound and with each signaled operation.
    pub(crate) fn any() -> [Place; 2] {
        [
            Place { index: ANY_BOUND },
            Place {
                index: ANY_SIGNALED,
            },
        ]
    }

    /// The bell that is rung where a want is met. There is none for a try that was lost against another actor: it is
    /// made again.
    pub(crate) fn of(want: Want) -> Option<Place> {
        let index = match want {
            Want::Submitted { job } => SUBMITTED + job % EACH,
            Want::Released { job } => RELEASED + job % EACH,
            Want::Bound { op } | Want::Next { op } => BOUND + op % EACH,
            Want::Signaled { op } => SIGNALED + op % EACH,
            Want::Finished { job } => FINISHED + job % EACH,
            Want::MemoryTurn => MEMORY,
            Want::Exchange { .. } | Want::Listed { .. } => return None,
        };
        Some(Place { index })
    }

    /// Whether it is the same bell.
    pub(crate) fn is(&self, other: &Place) -> bool {
        self.index == other.index
    }
}

/// The bell that an event rings; none for one that nobody waits for.
fn place_by(event: &Event) -> Option<Place> {
    let index = match event {
        Event::Submit { job } => SUBMITTED + *job % EACH,
        Event::Release { job } => RELEASED + *job % EACH,
        Event::Bind { op, .. } => BOUND + *op % EACH,
        Event::Signal { op } => SIGNALED + *op % EACH,
        Event::Finish { job } => FINISHED + *job % EACH,
        Event::Apply { .. } => MEMORY,
        _ => return None,
    };
    Some(Place { index })
}

/// The bell that an event rings for those who wait for any of its kind.
fn any_by(event: &Event) -> Option<Place> {
    let index = match event {
        Event::Bind { .. } => ANY_BOUND,
        Event::Signal { .. } => ANY_SIGNALED,
        _ => return None,
    };
    Some(Place { index })
}

/// The bells of a run, the calls, and the beds.
#[derive(Drop)]
pub(crate) struct Bells {
    /// Who waits at each bell.
    waiting: Vec<AtomicU64>,
    /// Whose turns are to be taken.
    called: AtomicU64,
    /// Who has no thread: the caller hears their calls.
    lone: AtomicU64,
    /// Where the threads of each number sleep.
    beds: Vec<EventCount>,
    /// Of places without a bell, and of numbers without a bed, which there are none of.
    spare: AtomicU64,
    spare_bed: EventCount,
}

impl Bells {
    /// All bells of a run, in which each worker is called. The error is want of memory.
    pub(crate) fn new(alloc: Global) -> Result<Bells, AllocError> {
        let mut waiting = Vec::with_capacity(alloc, ALL as usize)?;
        for _ in 0..ALL {
            waiting.push(AtomicU64::new(0))?;
        }
        let mut beds = Vec::with_capacity(alloc, 64)?;
        for _ in 0..64u32 {
            beds.push(EventCount::new())?;
        }
        Ok(Bells {
            waiting,
            called: AtomicU64::new(Actors::workers().bits),
            lone: AtomicU64::new(0),
            beds,
            spare: AtomicU64::new(0),
            spare_bed: EventCount::new(),
        })
    }

    /// Who waits at the bell of a place.
    fn at(&self, place: Place) -> &AtomicU64 {
        match self.waiting.as_slice().get(place.index as usize) {
            Some(word) => word,
            None => &self.spare,
        }
    }

    /// The bed of a number.
    fn bed(&self, number: u32) -> &EventCount {
        match self.beds.as_slice().get(number as usize) {
            Some(bed) => bed,
            None => &self.spare_bed,
        }
    }

    /// Begins to wait at a bell: a ring from now on is a call. Who began looks once more then.
    pub(crate) fn wait_at(&self, place: Place, number: u32) {
        self.at(place).fetch_or(Actors::of(number).bits, SeqCst);
    }

    /// Those who wait at a bell, and wait there no more.
    fn taken_from(&self, place: Place) -> Actors {
        let word = self.at(place);
        if word.load(SeqCst) == 0 {
            return Actors::none();
        }
        Actors {
            bits: word.swap(0, SeqCst),
        }
    }

    /// Calls those whom an event may let go on. Whoever made it sees to it that their turns are taken.
    pub(crate) fn ring(&self, event: &Event) -> Actors {
        let mut found = Actors::none();
        if let Some(place) = place_by(event) {
            found = self.taken_from(place);
        }
        if let Some(place) = any_by(event) {
            found = found.and(self.taken_from(place));
        }
        if !found.is_empty() {
            self.call(found);
        }
        found
    }

    /// Calls some actors.
    pub(crate) fn call(&self, actors: Actors) {
        self.called.fetch_or(actors.bits, SeqCst);
    }

    /// Whether some of these are called.
    pub(crate) fn are_called(&self, actors: Actors) -> bool {
        let called = Actors {
            bits: self.called.load(SeqCst),
        };
        called.meets(actors)
    }

    /// Answers a call, if there is one: who does so takes the turns.
    pub(crate) fn answer(&self, number: u32) -> bool {
        let actors = Actors::of(number);
        if !self.are_called(actors) {
            return false;
        }
        let called = Actors {
            bits: self.called.fetch_and(!actors.bits, SeqCst),
        };
        called.meets(actors)
    }

    /// Notes that the actors of a number have no thread, or not all of them.
    pub(crate) fn note_lone(&self, number: u32) {
        self.lone.fetch_or(Actors::of(number).bits, SeqCst);
    }

    /// The actors that have no thread, with those of their numbers.
    pub(crate) fn lone(&self) -> Actors {
        Actors {
            bits: self.lone.load(SeqCst),
        }
    }

    /// Whose calls the caller hears: its own, and those of the actors that have no thread.
    pub(crate) fn heard(&self) -> Actors {
        self.lone().and(Actors::of(CALLER))
    }

    /// Wakes the threads of a number, and the caller for those that have none.
    pub(crate) fn wake(&self, number: u32) {
        self.bed(number).notify_all();
        if self.lone().meets(Actors::of(number)) {
            self.bed(CALLER).notify_all();
        }
    }

    /// Wakes the threads of all of these.
    pub(crate) fn wake_all(&self, actors: Actors) {
        if actors.is_empty() {
            return;
        }
        for number in 0..=CALLER {
            if actors.meets(Actors::of(number)) {
                self.wake(number);
            }
        }
    }

    /// Begins to sleep on the bed of a number: a wake from now on ends it. Who began looks once more for calls.
    pub(crate) fn begin_sleep(&self, number: u32) -> Key<'_> {
        self.bed(number).prepare_wait()
    }
}
