//! The names that are declared, and what each stands for.
ghost use Rattle.std.specs.Prelude.{◌≡◌, [], List, OnErr, OnOk};
ghost use Rattle.std.specs.Option.{option_map};
ghost use Rattle.vq_capture.specs.Context.{Named, named, without_name};
ghost use Rattle.vq_capture.specs.Statements.{with_name};
ghost use Rattle.vq_capture_reader.specs.Things.{thing_of};
ghost use Rattle.vq_capture_reader.specs.NameMaps.{StandsFor, past_names};

use crate::past_names::{PastNames, Thing};
use std::alloc::{AllocError, Global};
use std::collections::BTreeMap;
use std::snapshot::Snapshot;
use vq_capture::statement::Kind;

/// The names that are declared, and what each stands for.
#[derive(Drop)]
pub struct Names {
    map: BTreeMap<Vec<u8>, Thing>,
    past: Snapshot<PastNames>,
    ghost all: { StandsFor map (past_names past.value) },
}

/// No names, as clauses see them.
fn no_past() -> Snapshot<PastNames>
    ensures { past_names result.value ≡ [] }
{
    Snapshot::of(&PastNames::NoNames)
}

/// Puts a name into a map, unless it has it.
fn put_new(
    map: &mut BTreeMap<Vec<u8>, Thing>,
    name: Vec<u8>,
    thing: Thing,
) -> Result<(), AllocError>
    ensures put { OnOk result ((names : List Named) → StandsFor map.old names →
        StandsFor map.new (with_name thing.kind thing.line name.items names)) }
    ensures err { OnErr result (map.new.entries ≡ map.old.entries) }
{
    if map.contains_key(name.as_slice()) {
        return Ok(());
    }
    map.insert(name, thing)?;
    Ok(())
}

impl Names {
    ghost use Rattle.vq_capture.specs.Context.{declared_at};
    ghost use Rattle.vq_capture_reader.specs.NameLists.{names_of};

    /// No names.
    pub fn new(alloc: Global) -> Names
        ensures { names_of result ≡ [] }
    {
        Names {
            map: BTreeMap::new(alloc),
            past: no_past(),
        }
    }

    /// What a name stands for, if it is declared.
    pub fn get(&self, word: &[u8]) -> Option<Thing>
        ensures { result ≡ option_map thing_of (named (names_of self.now) word.now) }
    {
        self.map.get(word).copied()
    }

    /// The line that declared a name, 0 where none did.
    pub fn line_of(&self, word: &[u8]) -> u64
        ensures { result ≡ declared_at (names_of self.now) word.now }
    {
        match self.get(word) {
            Some(thing) => thing.line,
            None => 0,
        }
    }

    /// Declares a name at a line.
    pub fn declare(
        &mut self,
        alloc: Global,
        kind: Kind,
        line: u64,
        word: &[u8],
    ) -> Result<(), AllocError>
        ensures { OnOk result (names_of self.new ≡ with_name kind line word.now (names_of self.old)) }
    {
        let thing = Thing { kind, line };
        let name = Vec::from_slice(alloc, word)?;
        let seen = Snapshot::of(&name);
        put_new(&mut self.map, name, thing)?;
        let before = std::mem::replace(&mut self.past, no_past());
        self.past = Snapshot::of(&PastNames::Declared {
            before,
            name: seen,
            thing,
        });
        Ok(())
    }

    /// Ends a name.
    pub fn end(&mut self, alloc: Global, word: &[u8]) -> Result<(), AllocError>
        ensures { OnOk result (names_of self.new ≡ without_name (names_of self.old) word.now) }
    {
        let name = Vec::from_slice(alloc, word)?;
        self.map.remove(word);
        let before = std::mem::replace(&mut self.past, no_past());
        self.past = Snapshot::of(&PastNames::Ended {
            before,
            name: Snapshot::of(&name),
        });
        Ok(())
    }
}
