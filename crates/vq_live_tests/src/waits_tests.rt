//! One thread waits for values that the other reaches, with points between that nobody waits for.
use crate::scene::{Scene, reach_four, signal};
use std::alloc::Global;
use std::sync::Wait;
use std::thread::{Threads, join};
use vq_live_lock::{Wanted, wait_all};

const ROUNDS: u64 = 10_000;

/// Waits for either timeline, and says by the third that it was woken by the right one.
fn waits_for_any<R: Wait>(rt: &R, scene: &Scene) -> bool {
    for round in 0..ROUNDS {
        let value = (round + 1) * 4;
        let wanted = [
            Wanted {
                timeline: &scene.first,
                value,
            },
            Wanted {
                timeline: &scene.second,
                value,
            },
        ];
        let Some((number, _shown)) = scene.bell.wait_any(rt, &wanted) else {
            return false;
        };
        let is_right = number as u64 == round % 2;
        if !signal(rt, &scene.done, round + 1) || !is_right {
            return false;
        }
    }
    true
}

/// Reaches the value on one of them, and waits for the answer.
fn reaches_one<R: Wait>(rt: &R, scene: &Scene) -> bool {
    for round in 0..ROUNDS {
        let timeline = if round % 2 == 0 {
            &scene.first
        } else {
            &scene.second
        };
        if !reach_four(rt, timeline, (round + 1) * 4) {
            return false;
        }
        let _shown = scene.done.wait(rt, round + 1);
    }
    true
}

fn any_in_threads<R: Threads + Wait + Sync>(rt: &R, alloc: Global) -> bool {
    let Ok(scene) = Scene::new(alloc) else {
        return false;
    };
    join(rt, || waits_for_any(rt, &scene), || reaches_one(rt, &scene)) == (true, true)
}

/// Waits for both timelines.
fn waits_for_all<R: Wait>(rt: &R, alloc: Global, scene: &Scene) -> bool {
    for round in 0..ROUNDS {
        let value = (round + 1) * 4;
        let wanted = [
            Wanted {
                timeline: &scene.first,
                value,
            },
            Wanted {
                timeline: &scene.second,
                value,
            },
        ];
        let Ok(_shown) = wait_all(rt, alloc, &wanted) else {
            return false;
        };
        if scene.first.look().0 != value || scene.second.look().0 != value {
            return false;
        }
        if !signal(rt, &scene.done, round + 1) {
            return false;
        }
    }
    true
}

/// Reaches the value on both, in either order, and waits for the answer.
fn reaches_both<R: Wait>(rt: &R, scene: &Scene) -> bool {
    for round in 0..ROUNDS {
        let last = (round + 1) * 4;
        let (earlier, later) = if round % 2 == 0 {
            (&scene.first, &scene.second)
        } else {
            (&scene.second, &scene.first)
        };
        if !reach_four(rt, earlier, last) || !reach_four(rt, later, last) {
            return false;
        }
        let _shown = scene.done.wait(rt, round + 1);
    }
    true
}

fn all_in_threads<R: Threads + Wait + Sync>(rt: &R, alloc: Global) -> bool {
    let Ok(scene) = Scene::new(alloc) else {
        return false;
    };
    join(
        rt,
        || waits_for_all(rt, alloc, &scene),
        || reaches_both(rt, &scene),
    ) == (true, true)
}

#[test]
fn either_timeline_wakes_a_wait_for_any(rt: HostRuntime) {
    assert!(rt; any_in_threads(&rt, rt.alloc()));
}

#[test]
fn both_timelines_wake_a_wait_for_all(rt: HostRuntime) {
    assert!(rt; all_in_threads(&rt, rt.alloc()));
}
