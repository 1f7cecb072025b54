//! What names stand for: of each the number of the first thing with this name.
ghost use Rattle.std.specs.Prelude.{◌≡◌, ◌<◌, ◌^◌, ℕ, List, OnOk, IfOk, Some, None, if◌then◌else◌, find, length};
ghost use Rattle.std.specs.List.{range_with_len};
ghost use Rattle.std.specs.Option.{option_or};
ghost use Rattle.std.specs.Str.{bytes_eq};
ghost use Rattle.vq_model.specs.Naming.{queue_name, semaphore_name};
ghost use Rattle.vq_trace.specs.NameTables.{named};

use std::alloc::{AllocError, Global};
use std::collections::BTreeMap;
use vq_model::script::Script;
use vq_text::{queue_name, semaphore_name};

/// The number of each name.
#[derive(Drop)]
pub(crate) struct Names {
    numbers: BTreeMap<Vec<u8>, u32>,
}

impl Names {
    /// No names.
    fn new(alloc: Global) -> Names
        ensures { (name : List ℕ) → named result name ≡ None }
    {
        Names {
            numbers: BTreeMap::new(alloc),
        }
    }

    /// The number of what has this name.
    pub(crate) fn number(&self, name: &[u8]) -> Option<u32>
        ensures { result ≡ named self.now name.now }
    {
        self.numbers.get(name).copied()
    }

    /// Adds a name, if it is new.
    fn add(&mut self, alloc: Global, name: &[u8], number: u32) -> Result<(), AllocError>
        ensures { OnOk result ((other : List ℕ) → named self.new other
            ≡ option_or (named self.old other) (if bytes_eq other name.now then Some number else None)) }
    {
        if self.numbers.contains_key(name) {
            return Ok(());
        }
        let key = Vec::from_slice(alloc, name)?;
        self.numbers.insert(key, number)?;
        Ok(())
    }
}

/// The names of semaphores and fences.
#[tactic(auto, using(crate::proofs::FirstNames::found_next))]
pub(crate) fn semaphore_names(alloc: Global, script: &Script) -> Result<Names, AllocError>
    requires { length script.now.semaphores < 2 ^ 32 }
    ensures { IfOk result (λ names. (name : List ℕ) → named names name
        ≡ find (λ t. bytes_eq name (semaphore_name script.now t))
        (range_with_len 0 (length script.now.semaphores))) }
{
    let mut names = Names::new(alloc);
    for number in 0..script.semaphores.len() {
        names.add(alloc, semaphore_name(script, number as u32), number as u32)?;
    }
    Ok(names)
}

/// The names of queues.
#[tactic(auto, using(crate::proofs::FirstNames::found_next))]
pub(crate) fn queue_names(alloc: Global, script: &Script) -> Result<Names, AllocError>
    requires { length script.now.queues < 2 ^ 32 }
    ensures { IfOk result (λ names. (name : List ℕ) → named names name
        ≡ find (λ q. bytes_eq name (queue_name script.now q))
        (range_with_len 0 (length script.now.queues))) }
{
    let mut names = Names::new(alloc);
    for number in 0..script.queues.len() {
        names.add(alloc, queue_name(script, number as u32), number as u32)?;
    }
    Ok(names)
}
