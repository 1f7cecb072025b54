// The bytes of a source in memory that are left to read.
ghost use Rattle.std.specs.Prelude.{◌≡◌, ◌≤◌, ◌++◌, length, take, drop};

use std::marker::Model;

#[derive(Drop)]
pub struct Rest {
    bytes: Vec<u8>,
    taken: usize,
}

impl Model for Rest {
    ghost use Rattle.std.specs.Prelude.{ℕ, ◌≤◌, List, length, drop};

    ghost Value = { List ℕ };

    ghost view = { λ r. drop r.taken r.bytes.items };

    ghost invariant = { λ r. r.taken ≤ length r.bytes.items };
}

impl Rest {
    pub fn new(bytes: Vec<u8>) -> Rest
        ensures { result ≡ bytes.items }
    {
        Rest { bytes, taken: 0 }
    }

    pub fn len(&self) -> usize
        ensures { result ≡ length self.now }
    {
        self.bytes.len() - self.taken
    }

    // Moves the first `count` bytes into the front of this piece.
    pub fn move_into(&mut self, piece: &mut [u8], count: usize)
        requires fits { count ≤ length piece.old }
        requires enough { count ≤ length self.old }
        ensures piece { piece.new ≡ take count self.old ++ drop count piece.old }
        ensures rest { self.new ≡ drop count self.old }
    {
        let end = self.taken + count;
        piece[..count].copy_from_slice(&self.bytes[self.taken..end]);
        self.taken = end;
    }
}
