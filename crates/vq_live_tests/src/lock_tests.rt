//! Two locks are free of one another, and two threads lose no change under one.
ghost use Rattle.std.specs.Prelude.{⊤};

use std::alloc::{AllocError, Global};
use std::sync::Wait;
use std::thread::{Threads, join};
use vq_lock::{Fits, KeyedLock};

/// A count, and the key of its lock.
#[derive(Drop)]
struct Count {
    value: u64,
}

#[derive(Drop)]
struct Key {
    number: u64,
}

impl Fits<Key> for Count {
    ghost fits = { λ _ _. ⊤ };
}

impl Count {
    fn add(&mut self) {
        self.value = self.value.wrapping_add(1);
    }
}

fn lock_of(alloc: Global, number: u64) -> Result<KeyedLock<Key, Count>, AllocError> {
    KeyedLock::new(alloc, &Key { number }, Count { value: 0 })
}

/// Takes the lock, adds one, and frees it.
fn add<R: Wait>(rt: &R, lock: &KeyedLock<Key, Count>) {
    let mut guard = lock.lock(rt);
    guard.content(lock).add();
    lock.unlock(guard);
}

fn add_often<R: Wait>(rt: &R, lock: &KeyedLock<Key, Count>) {
    for _ in 0..1000 {
        add(rt, lock);
    }
}

fn add_in_threads<R: Threads + Wait + Sync>(rt: &R, lock: &KeyedLock<Key, Count>) {
    join(rt, || add_often(rt, lock), || add_often(rt, lock));
}

/// What two threads count.
fn counted<R: Threads + Wait + Sync>(rt: &R, alloc: Global) -> Option<u64> {
    let Ok(lock) = lock_of(alloc, 0) else {
        return None;
    };
    add_in_threads(rt, &lock);
    match lock.into_inner() {
        Ok(count) => Some(count.value),
        Err(_) => None,
    }
}

/// Whether a lock is got at once; if so, it is freed again.
fn is_free(lock: &KeyedLock<Key, Count>) -> bool {
    match lock.try_lock() {
        Some(guard) => {
            lock.unlock(guard);
            true
        }
        None => false,
    }
}

/// While the first lock is taken, the second is got at once, and the first isn't. With one lock for both
/// this would wait for ever.
fn gets_second<R: Wait>(
    rt: &R,
    first: &KeyedLock<Key, Count>,
    second: &KeyedLock<Key, Count>,
) -> bool {
    let guard = first.lock(rt);
    add(rt, second);
    let got = is_free(first);
    first.unlock(guard);
    !got
}

fn are_apart<R: Wait>(rt: &R, alloc: Global) -> bool {
    let (Ok(first), Ok(second)) = (lock_of(alloc, 1), lock_of(alloc, 2)) else {
        return false;
    };
    gets_second(rt, &first, &second)
}

#[test]
fn two_threads_lose_no_change(rt: HostRuntime) {
    assert!(rt; counted(&rt, rt.alloc()) == Some(2000));
}

#[test]
fn two_locks_are_free_of_one_another(rt: HostRuntime) {
    assert!(rt; are_apart(&rt, rt.alloc()));
}
