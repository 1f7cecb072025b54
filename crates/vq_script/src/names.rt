//! The declared names, and what each stands for.
ghost use Rattle.std.specs.Prelude.{◌≡◌, ◌<◌, [], All, IfSome, None, OnErr, OnOk, Some};
ghost use Rattle.std.specs.BTreeMap.{Updates};
ghost use Rattle.vq_script.specs.Names.{item_of, key_cmp};

use crate::named_item::NamedItem;
use std::alloc::{AllocError, Global};
use std::collections::BTreeMap;

/// How many places there are to which names lead.
const PLACES: usize = 1024;

/// A name, and what it stands for.
#[derive(Drop)]
pub struct Entry {
    name: Vec<u8>,
    item: NamedItem,
}

/// The declared names, and what each stands for. Most are found at a place to which their last bytes lead; all are in
/// a map.
#[derive(Drop)]
pub struct Names {
    pub map: BTreeMap<Vec<u8>, NamedItem>,
    entries: Vec<Entry>,
    /// For each place, the number of the last entry whose name leads there, or of any entry.
    places: Vec<u16>,
    ghost found: { All (λ e. item_of map e.name.items ≡ Some e.item) entries.items },
}

/// The place to which a name leads. Names that end with numbers of three digits lead to places of their own, and so do
/// those that end with two hexadecimal digits behind the same byte.
#[inline(always)]
fn place_of(name: &[u8]) -> usize
    ensures { result < 1024 }
{
    let sum: usize = match name {
        [.., a, b, c] => usize::from(*a) * 10 + usize::from(*b) * 102 + usize::from(*c),
        [b, c] => usize::from(*b) * 102 + usize::from(*c),
        [c] => usize::from(*c),
        _ => 0,
    };
    sum % PLACES
}

impl Names {
    /// No names.
    pub fn new(alloc: Global) -> Names
        ensures { result.map.entries ≡ [] }
    {
        Names {
            map: BTreeMap::new(alloc),
            entries: Vec::new(alloc),
            places: Vec::new(alloc),
        }
    }

    /// What a name stands for, if it is the last that leads to its place.
    #[inline(always)]
    fn last_at_place(&self, name: &[u8]) -> Option<NamedItem>
        ensures { IfSome result (λ item. item_of self.now.map name.now ≡ Some item) }
    {
        let number = self.places.get(place_of(name))?;
        let entry = self.entries.get(usize::from(*number))?;
        if entry.name.as_slice() == name {
            Some(entry.item)
        } else {
            None
        }
    }

    /// What a name stands for in the map.
    #[inline(never)]
    fn in_map(&self, name: &[u8]) -> Option<NamedItem>
        ensures { result ≡ item_of self.now.map name.now }
    {
        self.map.get(name).copied()
    }

    /// What a name stands for.
    #[inline(always)]
    pub fn get(&self, name: &[u8]) -> Option<NamedItem>
        ensures { result ≡ item_of self.now.map name.now }
    {
        if let Some(item) = self.last_at_place(name) {
            return Some(item);
        }
        self.in_map(name)
    }

    /// Puts a name that is new among them. For want of memory all names stay as they were.
    pub fn insert(
        &mut self,
        alloc: Global,
        name: Vec<u8>,
        item: NamedItem,
    ) -> Result<(), AllocError>
        requires { item_of self.old.map name.items ≡ None }
        ensures put { OnOk result (Updates key_cmp self.old.map self.new.map name (Some item)) }
        ensures err { OnErr result (self.new.map.entries ≡ self.old.map.entries) }
    {
        let copy = Vec::from_slice(alloc, &name)?;
        self.entries.reserve(1)?;
        if self.places.is_empty() {
            self.places = vec![in alloc; 0; PLACES]?;
        }
        self.map.insert(name, item)?;
        let (place, number) = (place_of(&copy), self.entries.len());
        if place < self.places.len() && number < 65536 {
            self.places[place] = number as u16;
        }
        self.entries.push_reserved(Entry { name: copy, item });
        Ok(())
    }
}
