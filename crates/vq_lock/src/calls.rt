//! Taking a lock and freeing it, its opening and its end.
//!
//! Source: this project's own.
ghost use Rattle.std.specs.Prelude.{◌≡◌, IfOk, IfSome};
ghost use Rattle.vq_lock.specs.Named.{key_of, Has};

use crate::lock::{Guard, KeyedLock};
use crate::parts::{Fits, Give, Sit, Take};
use atomic_table::Table;
use std::alloc::{AllocError, Global};
use std::sync::Wait;

const FREE: u64 = 0;
/// Taken, and nobody waits.
const TAKEN: u64 = 1;
/// Taken, and somebody may wait.
const WAITED_FOR: u64 = 2;

impl<K, T: Fits<K> + Drop> KeyedLock<K, T> {
    /// A free lock for this key, with content that fits it. The error is want of memory; no other call
    /// takes memory.
    pub fn new(alloc: Global, key: &K, content: T) -> Result<KeyedLock<K, T>, AllocError>
        requires { T.fits key.now content }
        ensures { IfOk result (λ l. key_of l ≡ key.now) }
    {
        let mut slots = Vec::new(alloc);
        slots.push(content)?;
        let Ok((table, _seat)) = Table::new(alloc, &[FREE], slots, key) else {
            return Err(AllocError);
        };
        Ok(KeyedLock { table })
    }
}

impl<K, T: Fits<K>> KeyedLock<K, T> {
    /// Takes the lock, if it is free. It doesn't wait.
    pub fn try_lock(&self) -> Option<Guard<K, T>>
        ensures { IfSome result (λ g. (x : T) × Has self.now g x × T.fits (key_of self.now) x) }
    {
        let (found, mut seat) = self.table.shared.load_new_seat::<Sit>(0);
        if found != FREE {
            return None;
        }
        // a swap here would write over 2, and lose the waking of who waits
        let found = self
            .table
            .shared
            .compare_exchange::<Take>(&mut seat, 0, FREE, TAKEN);
        if found == FREE {
            Some(Guard { seat })
        } else {
            None
        }
    }

    /// Waits until the lock is free, and takes it.
    pub fn lock<R: Wait>(&self, rt: &R) -> Guard<K, T>
        ensures { (x : T) × Has self.now result x × T.fits (key_of self.now) x }
    {
        if let Some(guard) = self.try_lock() {
            return guard;
        }
        for _ in rt.forever() {
            let (found, seat) = self.table.shared.swap_new_seat::<Take>(0, WAITED_FOR);
            if found == FREE {
                return Guard { seat };
            }
            self.table.shared.park(rt, 0, WAITED_FOR as u32);
        }
        unreachable!()
    }

    /// Frees the lock, with content that fits its key, and wakes one of those who wait for it.
    pub fn unlock(&self, guard: Guard<K, T>)
        requires { (x : T) × Has self.now guard x × T.fits (key_of self.now) x }
    {
        let Guard { mut seat } = guard;
        if self.table.shared.swap::<Give>(&mut seat, 0, FREE) != TAKEN {
            self.table.shared.wake_one(0);
        }
    }

    /// Frees the lock, with content that fits its key, and wakes nobody. It is for a lock that nobody waits
    /// for, as all who take it do so by `try_lock`; who waits by `lock` might else sleep for ever.
    pub fn unlock_quietly(&self, guard: Guard<K, T>)
        requires { (x : T) × Has self.now guard x × T.fits (key_of self.now) x }
    {
        let Guard { mut seat } = guard;
        self.table.shared.swap::<Give>(&mut seat, 0, FREE);
    }

    /// Takes the content out. It fits the key where the lock was free; it is an error where a guard was
    /// lost, and then nothing is known of the content.
    pub fn into_inner(self) -> Result<T, T>
        ensures { IfOk result (λ x. T.fits (key_of self) x) }
    {
        let KeyedLock { table } = self;
        let mut closed = table.close();
        let word = closed.word(0);
        let content = closed.take(0);
        closed.free();
        if word == FREE {
            Ok(content)
        } else {
            Err(content)
        }
    }
}
