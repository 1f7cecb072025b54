// The bytes of a sink in memory, in a room that is taken once.
ghost use Rattle.std.specs.Prelude.{◌≡◌, ◌+◌, ◌-◌, ◌≤◌, [], ◌++◌, length, IfOk};

use std::alloc::{AllocError, Global};
use std::marker::Model;

// The bytes that a sink in memory has room for, where nothing else is said.
pub const ROOM: usize = 8_388_608;

#[derive(Drop)]
pub struct Store {
    bytes: Vec<u8>,
    room: usize,
}

impl Model for Store {
    ghost use Rattle.std.specs.Prelude.{◌≤◌, length, vec_capacity};
    ghost use Rattle.vq_port.specs.InMemory.{StoreState};

    ghost Value = { StoreState };

    ghost view = { λ s. record { bytes = s.bytes.items; room = s.room } };

    ghost invariant = { λ s. (length s.bytes.items ≤ s.room) × (s.room ≤ vec_capacity s.bytes) };
}

impl Store {
    pub fn new(alloc: Global, room: usize) -> Result<Store, AllocError>
        ensures { IfOk result (λ store. store ≡ record { bytes = []; room = room }) }
    {
        let bytes = Vec::with_capacity(alloc, room)?;
        Ok(Store { bytes, room })
    }

    pub fn as_slice(&self) -> &[u8]
        ensures { result.now ≡ self.now.bytes }
    {
        &self.bytes
    }

    // How many bytes fit behind those that are there.
    pub fn free(&self) -> usize
        ensures free { result ≡ self.now.room - length self.now.bytes }
        ensures within { length self.now.bytes ≤ self.now.room }
    {
        self.room - self.bytes.len()
    }

    // Appends bytes that fit. It takes no memory.
    pub fn append(&mut self, piece: &[u8])
        requires { length self.old.bytes + length piece.now ≤ self.old.room }
        ensures { self.new ≡ record self.old { bytes = self.old.bytes ++ piece.now } }
    {
        self.bytes.extend_from_slice(piece).unwrap();
    }
}
