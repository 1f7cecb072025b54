//! The lists of a timeline of two operations.
use std::alloc::Global;
use vq_timeline_core::{Found, TimelineCore};

/// Whether a point waits once it is completed, and is free once it is freed.
fn is_freed(alloc: Global) -> bool {
    let Ok(mut timeline) = TimelineCore::new(alloc, 0, &[2, 7]) else {
        return false;
    };
    timeline.take(0, 10);
    if timeline.bind(0, 10).is_err() {
        return false;
    }
    timeline.complete_first();
    let waits = timeline.waiting_free() == [10].as_slice();
    timeline.free(10);
    waits && timeline.free_count() == 1 && timeline.find(2) == Found::Past { past: 1 }
}

#[test]
fn points_are_freed(rt: HostRuntime) {
    assert!(rt; is_freed(rt.alloc()));
}
