// Which calls of a port in memory fail, and how many have.
ghost use Rattle.std.specs.Prelude.{◌≡◌, ◌≤◌, ◌↔◌, IsTrue};
ghost use Rattle.vq_port.specs.Faults.{one_more};
ghost use Rattle.vq_port.specs.InMemory.{IsNamed};

use crate::Failed;
use crate::failed::count_fault;
use std::marker::Model;

#[derive(Drop)]
pub struct Calls {
    fails: Vec<u32>,
    calls: u64,
    faults: u64,
}

impl Model for Calls {
    ghost use Rattle.vq_port.specs.InMemory.{CallState};

    ghost Value = { CallState };

    ghost view = { λ c. record { fails = c.fails.items; calls = c.calls; faults = c.faults } };
}

impl Calls {
    pub fn new(fails: Vec<u32>) -> Calls
        ensures { result ≡ record { fails = fails.items; calls = 0; faults = 0 } }
    {
        Calls {
            fails,
            calls: 0,
            faults: 0,
        }
    }

    // Counts one more call, and says whether it is to fail.
    pub fn count_call(&mut self) -> bool
        ensures named { IsTrue result ↔ IsNamed self.old.fails self.old.calls }
        ensures counted { self.new ≡ record self.old { calls = one_more self.old.calls } }
    {
        self.calls = self.calls.saturating_add(1);
        let number = self.calls;
        self.fails.iter().any(|named| u64::from(*named) == number)
    }

    // Counts one more fault, and gives it as an error.
    pub fn count_fault(&mut self) -> Failed
        ensures faults { self.new ≡ record self.old { faults = one_more self.old.faults } }
        ensures counted { self.old.faults ≤ self.new.faults }
    {
        count_fault(&mut self.faults)
    }
}
