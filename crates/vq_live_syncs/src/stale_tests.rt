//! A driver's flags as sync objects: what is seen of one take completes no other.
use crate::syncs::{BinarySync, Signaled};
use crate::timeline::{Reach, SyncedTimeline, Taken};
use std::alloc::Global;
use vq_live::Given;

/// The flag of one point, and the number of the take that it was reset for.
#[derive(Drop)]
struct Flag {
    is_set: bool,
    number: u64,
}

impl BinarySync for Flag {
    ghost use Rattle.std.specs.Prelude.{true};

    ghost signaled = { λ _ _. true };

    fn is_signaled(&mut self, point: u32, number: u64) -> bool {
        point == 0 && number == self.number && self.is_set
    }
}

const FIRST: Taken = Taken {
    given: Given { value: 1, point: 0 },
    number: 0,
};

/// The same point, taken again.
const SECOND: Taken = Taken {
    given: Given { value: 2, point: 0 },
    number: 1,
};

/// Takes and installs the value, which has to come out as this.
fn is_submitted(timeline: &mut SyncedTimeline<Flag>, wanted: Taken) -> bool {
    timeline.take(wanted.given.value) == Ok(wanted) && timeline.install(wanted.given).is_ok()
}

/// Whether what was seen completes this operation.
fn completes(timeline: &mut SyncedTimeline<Flag>, seen: Signaled<Flag>, wanted: Taken) -> bool {
    match timeline.complete(seen) {
        Ok(taken) => taken == wanted
            && timeline.value() == (wanted.given.value, Reach::Work { taken }),
        Err(_) => false,
    }
}

/// Submits the first operation, and completes it once its flag is set. Another look at the flag is kept.
fn seen_early(timeline: &mut SyncedTimeline<Flag>, flag: &mut Flag) -> Option<Signaled<Flag>> {
    if !is_submitted(timeline, FIRST)
        || timeline.first() != Some(FIRST)
        || Signaled::look(flag, FIRST).is_some()
    {
        return None;
    }
    flag.is_set = true;
    let kept = Signaled::look(flag, FIRST)?;
    let seen = Signaled::look(flag, FIRST)?;
    if completes(timeline, seen, FIRST) {
        Some(kept)
    } else {
        None
    }
}

/// The flag wasn't reset for the second take, and what was seen of the first is handed back.
fn is_refused(alloc: Global) -> bool {
    let mut timeline = SyncedTimeline::new(alloc, 0);
    let mut flag = Flag {
        is_set: false,
        number: 0,
    };
    let Some(stale) = seen_early(&mut timeline, &mut flag) else {
        return false;
    };
    is_submitted(&mut timeline, SECOND)
        && Signaled::look(&mut flag, SECOND).is_none()
        && timeline.complete(stale).is_err()
        && timeline.timeline().value() == 1
}

#[test]
fn earlier_take_completes_no_later_operation(rt: HostRuntime) {
    assert!(rt; is_refused(rt.alloc()));
}
