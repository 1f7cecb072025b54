ghost use Rattle.std.specs.Prelude.{◌≡◌, ◌<◌, ◌≤◌, [], ◌++◌, length, take, drop, min, Some, IsOk};
ghost use Rattle.std.specs.Prelude.{IfOk, IfSome};
ghost use Rattle.std.specs.Option.{option_copied};
ghost use Rattle.vq_port.specs.InMemory.{told_after, room_left, sink_room};

use crate::rest::Rest;
use crate::store::{ROOM, Store};
use crate::{Failed, Sink, Source};
use std::alloc::{AllocError, Global};
use std::marker::Model;

/// A source over bytes in memory that never fails. This project's rule.
#[derive(Drop)]
pub struct SteadySource {
    rest: Rest,
}

impl Model for SteadySource {
    ghost use Rattle.std.specs.Prelude.{ℕ, List};

    ghost Value = { List ℕ };

    ghost view = { λ s. s.rest };
}

impl SteadySource {
    /// A source of these bytes. It takes no memory.
    pub fn new(bytes: Vec<u8>) -> SteadySource
        ensures { result ≡ bytes.items }
    {
        SteadySource {
            rest: Rest::new(bytes),
        }
    }
}

impl Source for SteadySource {
    ghost left = { λ s. Some s };

    ghost faults = { λ _. 0 };

    /// It moves as many bytes as are left and as fit into `piece`, and never fails.
    fn read(&mut self, piece: &mut [u8]) -> Result<usize, Failed>
        ensures steady { IsOk result }
        ensures count { IfOk result (λ count. count ≡ min (length piece.old) (length self.old)) }
        ensures moved { IfOk result (λ count. piece.new ≡ take count self.old ++ drop count piece.old) }
        ensures rest { IfOk result (λ count. self.new ≡ drop count self.old) }
    {
        let count = piece.len().min(self.rest.len());
        self.rest.move_into(piece, count);
        Ok(count)
    }
}

/// A sink in memory that never fails. It takes all bytes; once there were more than its room, they
/// are lost, and it tells nothing from then on. This project's rule.
#[derive(Drop)]
pub struct SteadySink {
    store: Store,
    is_over: bool,
}

impl Model for SteadySink {
    ghost use Rattle.std.specs.Prelude.{Some, None, if◌then◌else◌};
    ghost use Rattle.vq_port.specs.InMemory.{SteadyState};

    ghost Value = { SteadyState };

    ghost view = { λ s. record {
      written = if s.is_over then None else Some s.store.bytes;
      room = s.store.room;
    } };
}

impl SteadySink {
    /// A sink with room for 8,388,608 bytes. It takes the memory for them. The error is that there is none.
    pub fn new(alloc: Global) -> Result<SteadySink, AllocError>
        ensures { IfOk result (λ sink. sink ≡ record { written = Some []; room = sink_room }) }
    {
        SteadySink::with_room(alloc, ROOM)
    }

    /// A sink with room for so many bytes. It takes the memory for them. The error is that there is none.
    pub fn with_room(alloc: Global, room: usize) -> Result<SteadySink, AllocError>
        ensures { IfOk result (λ sink. sink ≡ record { written = Some []; room = room }) }
    {
        Ok(SteadySink {
            store: Store::new(alloc, room)?,
            is_over: false,
        })
    }

    /// The bytes that were written, or `None` where there were more than the room.
    pub fn written(&self) -> Option<&[u8]>
        ensures { option_copied result ≡ self.now.written }
    {
        if self.is_over {
            None
        } else {
            Some(self.store.as_slice())
        }
    }
}

impl Sink for SteadySink {
    ghost written = { λ s. s.written };

    ghost room = { λ s. room_left s.written s.room };

    ghost faults = { λ _. 0 };

    /// It takes all bytes of `piece`, and never fails.
    fn write(&mut self, piece: &[u8]) -> Result<usize, Failed>
        ensures steady { IsOk result }
        ensures count { IfOk result (λ count. count ≡ length piece.now) }
        ensures within { IfSome self.old.written (λ earlier. length earlier ≤ self.old.room) }
        ensures told { self.new ≡ record self.old { written = told_after self.old.written self.old.room piece.now } }
    {
        if piece.len() <= self.store.free() {
            self.store.append(piece);
        } else {
            self.is_over = true;
        }
        Ok(piece.len())
    }
}
