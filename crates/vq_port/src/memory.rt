ghost use Rattle.std.specs.Prelude.{◌≡◌, ◌≢◌, ◌↔◌, ◌⊎◌, ◌+◌, ◌-◌, ◌<◌, ◌≤◌};
ghost use Rattle.std.specs.Prelude.{[], ◌++◌, length, take, drop, min, Some};
ghost use Rattle.std.specs.Prelude.{IsErr, IfOk, OnOk, OnErr};
ghost use Rattle.vq_port.specs.Faults.{one_more};
ghost use Rattle.vq_port.specs.InMemory.{IsNamed, sink_room};

use crate::calls::Calls;
use crate::rest::Rest;
use crate::store::{ROOM, Store};
use crate::{Failed, Sink, Source};
use std::alloc::{AllocError, Global};
use std::marker::Model;

/// A source over bytes in memory, which moves at most so many bytes with a call, and fails at the
/// calls that were named, by their numbers from 1. This project's rule.
#[derive(Drop)]
pub struct MemorySource {
    rest: Rest,
    piece: usize,
    calls: Calls,
}

impl Model for MemorySource {
    ghost use Rattle.std.specs.Prelude.{◌≤◌};
    ghost use Rattle.vq_port.specs.InMemory.{SourceState};

    ghost Value = { SourceState };

    ghost view = { λ s. record {
      left = s.rest;
      piece = s.piece;
      fails = s.calls.fails;
      calls = s.calls.calls;
      faults = s.calls.faults;
    } };

    ghost invariant = { λ s. 1 ≤ s.piece };
}

impl MemorySource {
    /// A source of these bytes: a call moves at most `piece` of them, and the calls numbered in
    /// `fails` fail. It takes no memory.
    pub fn new(bytes: Vec<u8>, piece: usize, fails: Vec<u32>) -> MemorySource
        requires { 1 ≤ piece }
        ensures { result ≡ record { left = bytes.items; piece = piece; fails = fails.items; calls = 0; faults = 0 } }
    {
        MemorySource {
            rest: Rest::new(bytes),
            piece,
            calls: Calls::new(fails),
        }
    }
}

impl Source for MemorySource {
    ghost left = { λ s. Some s.left };

    ghost faults = { λ s. s.faults };

    /// It fails exactly at the calls that were named, and else moves as many bytes as are left, as
    /// fit into `piece` and as a call moves at the most.
    fn read(&mut self, piece: &mut [u8]) -> Result<usize, Failed>
        ensures fails { IsErr result ↔ IsNamed self.old.fails self.old.calls }

        ensures count { IfOk result (λ count.
            count ≡ min (length piece.old) (min self.old.piece (length self.old.left))) }
        ensures moved { IfOk result (λ count. piece.new ≡ take count self.old.left ++ drop count piece.old) }
        ensures ok { IfOk result (λ count. self.new ≡ record self.old {
          left = drop count self.old.left;
          calls = one_more self.old.calls;
        }) }
        ensures end { IfOk result (λ count. count ≡ 0 → 0 < length piece.old → self.old.left ≡ []) }

        ensures untouched { OnErr result (piece.new ≡ piece.old) }
        ensures err { OnErr result (self.new ≡ record self.old {
          calls = one_more self.old.calls;
          faults = one_more self.old.faults;
        }) }
        ensures counted { self.old.faults ≤ self.new.faults }
    {
        if self.calls.count_call() {
            return Err(self.calls.count_fault());
        }
        let count = piece.len().min(self.piece).min(self.rest.len());
        self.rest.move_into(piece, count);
        Ok(count)
    }
}

/// A sink in memory with room for 8,388,608 bytes, which takes at most so many bytes with a call,
/// and fails at the calls that were named, by their numbers from 1. This project's rule.
#[derive(Drop)]
pub struct MemorySink {
    store: Store,
    piece: usize,
    calls: Calls,
}

impl Model for MemorySink {
    ghost use Rattle.std.specs.Prelude.{◌≡◌, ◌≤◌};
    ghost use Rattle.vq_port.specs.InMemory.{SinkState, sink_room};

    ghost Value = { SinkState };

    ghost view = { λ s. record {
      written = s.store.bytes;
      piece = s.piece;
      fails = s.calls.fails;
      calls = s.calls.calls;
      faults = s.calls.faults;
    } };

    ghost invariant = { λ s. (1 ≤ s.piece) × (s.store.room ≡ sink_room) };
}

impl MemorySink {
    /// A sink with nothing written: a call takes at most `piece` bytes, and the calls numbered in
    /// `fails` fail. It takes the memory for its room. The error is that there is none.
    pub fn new(alloc: Global, piece: usize, fails: Vec<u32>) -> Result<MemorySink, AllocError>
        requires { 1 ≤ piece }
        ensures { IfOk result (λ sink. sink ≡ record {
          written = [];
          piece = piece;
          fails = fails.items;
          calls = 0;
          faults = 0;
        }) }
    {
        Ok(MemorySink {
            store: Store::new(alloc, ROOM)?,
            piece,
            calls: Calls::new(fails),
        })
    }

    /// The bytes that were written.
    pub fn written(&self) -> &[u8]
        ensures { result.now ≡ self.now.written }
    {
        self.store.as_slice()
    }
}

impl Sink for MemorySink {
    ghost written = { λ s. Some s.written };

    ghost room = { λ s. sink_room - length s.written };

    ghost faults = { λ s. s.faults };

    /// It fails exactly at the calls that were named, and where the bytes that it would take don't
    /// fit into its room; else it takes as many bytes as `piece` has and as a call takes at the most.
    fn write(&mut self, piece: &[u8]) -> Result<usize, Failed>
        ensures fails { IsErr result ↔ (IsNamed self.old.fails self.old.calls
            ⊎ (sink_room < length self.old.written + min (length piece.now) self.old.piece)) }

        ensures count { IfOk result (λ count. count ≡ min (length piece.now) self.old.piece) }
        ensures at_least { IfOk result (λ count. 0 < length piece.now → 0 < count) }
        ensures ok { IfOk result (λ count. self.new ≡ record self.old {
          written = self.old.written ++ take count piece.now;
          calls = one_more self.old.calls;
        }) }

        ensures err { OnErr result (self.new ≡ record self.old {
          calls = one_more self.old.calls;
          faults = one_more self.old.faults;
        }) }
        ensures counted { self.old.faults ≤ self.new.faults }
    {
        let named = self.calls.count_call();
        let count = piece.len().min(self.piece);
        if named || self.store.free() < count {
            return Err(self.calls.count_fault());
        }
        self.store.append(&piece[..count]);
        Ok(count)
    }
}
