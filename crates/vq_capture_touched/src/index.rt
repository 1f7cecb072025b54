//! The accesses of a resource that are kept, in an index.
ghost use Rattle.std.specs.Prelude.{◌≡◌, ◌<◌, ◌++◌, ◌∷◌, ◌==◌, [], ℕ, Bool, true, false, Some, IsTrue, IfOk, OnOk};
ghost use Rattle.std.specs.Prelude.{filter, length, not, slice_index_or};
ghost use Rattle.std.specs.List.{list_any};
ghost use Rattle.std.specs.Option.{option_copied};
ghost use Rattle.std.specs.Ordering.{nat_cmp};
ghost use Rattle.std.specs.BTreeMap.{get};
ghost use Rattle.vq_capture_touched.specs.declared.kind.Kind.{Kind};
ghost use Rattle.vq_capture_touched.specs.declared.touch.Touch.{Touch};
ghost use Rattle.vq_capture_touched.specs.Forgetting.{AreCovered, Drops, Forgets};
ghost use Rattle.vq_capture_touched.specs.Kinds.{is_listed, same_kind};
ghost use Rattle.vq_capture_touched.specs.Standing.{stands_for};

use crate::kind::Kind;
use crate::standing::stands_for;
use crate::touch::Touch;
use std::alloc::{AllocError, Global};
use std::collections::BTreeMap;
use vq_capture::capture::Step;

/// Accesses of a resource, each with its stamp, which rises; and by their kinds where each is found.
#[derive(Drop)]
pub struct TouchIndex {
    touches: BTreeMap<u64, Touch>,
    next: u64,
    kinds: Vec<Kind>,
    ghost listed: { (s : ℕ) (t : Touch) → get nat_cmp touches s ≡ Some t → is_listed kinds.items s t ≡ true },
    ghost below: { (s : ℕ) (t : Touch) → get nat_cmp touches s ≡ Some t → s < next },
}

/// The place of the kind that lists an access, behind the last one where there is none.
fn kind_for(kinds: &[Kind], touch: &Touch) -> usize
    ensures { (k : Kind) → result < length kinds.now → k ≡ slice_index_or kinds.now result k →
        same_kind k.latest touch.now ≡ true }
{
    let mut place = 0;
    while place < kinds.len() {
        if kinds[place].fits(touch) {
            return place;
        }
        place += 1;
    }
    place
}

/// Lists an access by its stamp. The error is want of memory.
fn list(alloc: Global, kinds: &mut Vec<Kind>, stamp: u64, touch: &Touch) -> Result<(), AllocError>
    ensures listed { OnOk result (is_listed kinds.new.items stamp touch.now ≡ true) }
    ensures kept { (s : ℕ) (t : Touch) → is_listed kinds.old.items s t ≡ true → is_listed kinds.new.items s t ≡ true }
{
    let place = kind_for(kinds, touch);
    if place < kinds.len() {
        return kinds[place].list(alloc, stamp, touch);
    }
    let mut kind = Kind::new(alloc, touch);
    kind.list(alloc, stamp, touch)?;
    kinds.push(kind)?;
    Ok(())
}

/// Lists an access no more.
fn unlist(kinds: &mut Vec<Kind>, stamp: u64, touch: &Touch)
    ensures { (s : ℕ) (t : Touch) → (s == stamp) ≡ false → is_listed kinds.old.items s t ≡ true →
        is_listed kinds.new.items s t ≡ true }
{
    let place = kind_for(kinds, touch);
    if place < kinds.len() {
        kinds[place].unlist(stamp, touch);
    }
}

/// The stamps of those for which an access may stand.
fn covered(alloc: Global, kinds: &[Kind], w: &Step) -> Result<Vec<u64>, AllocError>
    ensures { IfOk result (λ stamps. AreCovered w.now kinds.now stamps.items) }
{
    let mut stamps = Vec::new(alloc);
    for kind in kinds {
        kind.add_covered(w, &mut stamps)?;
    }
    Ok(stamps)
}

impl TouchIndex {
    ghost use Rattle.vq_capture_touched.specs.Indexed.{touches_of};

    /// No accesses.
    pub fn new(alloc: Global) -> TouchIndex
        ensures { touches_of result ≡ [] }
    {
        TouchIndex {
            touches: BTreeMap::new(alloc),
            next: 0,
            kinds: Vec::new(alloc),
        }
    }

    pub fn is_empty(&self) -> bool
        ensures { IsTrue result → touches_of self.now ≡ [] }
    {
        self.touches.is_empty()
    }

    /// The kinds of the accesses.
    pub fn kinds(&self) -> &[Kind]
        ensures kinds { result.now ≡ self.now.kinds.items }
        ensures none { (test : Touch → Bool) → ((s : ℕ) (t : Touch) → get nat_cmp self.now.touches s ≡ Some t →
            test t ≡ false) → list_any test (touches_of self.now) ≡ false }
    {
        let _count = self.touches.len();
        &self.kinds
    }

    /// The access that has a stamp.
    pub fn touch(&self, stamp: u64) -> Option<&Touch>
        ensures { option_copied result ≡ get nat_cmp self.now.touches stamp }
    {
        self.touches.get(&stamp)
    }

    /// All accesses, in the order of their lines. The error is want of memory.
    pub fn all(&self, alloc: Global) -> Result<Vec<Touch>, AllocError>
        ensures { IfOk result (λ touches. touches.items ≡ touches_of self.now) }
    {
        let mut touches = Vec::new(alloc);
        for touch in self.touches.values() {
            touches.push(*touch)?;
        }
        Ok(touches)
    }

    /// Adds an access behind the others. The error is want of memory.
    pub fn add(&mut self, alloc: Global, touch: &Touch) -> Result<(), AllocError>
        ensures { OnOk result (touches_of self.new ≡ touches_of self.old ++ touch.now ∷ []) }
    {
        let stamp = self.next;
        let Some(next) = stamp.checked_add(1) else {
            return Err(AllocError);
        };
        list(alloc, &mut self.kinds, stamp, touch)?;
        self.next = next;
        self.touches.insert(stamp, *touch)?;
        Ok(())
    }

    /// Forgets one access, if another one stands for it.
    fn forget_one(&mut self, w: &Step, stamp: u64)
        ensures { Drops w.now self.old.touches self.new.touches stamp }
    {
        let Some(touch) = self.touches.get(&stamp) else {
            return;
        };
        if !stands_for(w, &touch.step) {
            return;
        }
        let touch = *touch;
        self.touches.remove(&stamp);
        unlist(&mut self.kinds, stamp, &touch);
    }

    /// Forgets those of some accesses for which another one stands.
    fn forget_some(&mut self, w: &Step, stamps: &[u64])
        ensures { Forgets w.now self.old.touches self.new.touches stamps.now }
    {
        for stamp in stamps {
            self.forget_one(w, *stamp);
        }
    }

    /// Forgets the accesses for which one stands. The error is want of memory.
    pub fn forget(&mut self, alloc: Global, w: &Step) -> Result<(), AllocError>
        ensures { OnOk result (touches_of self.new ≡
            filter (λ t. not (stands_for w.now t.step)) (touches_of self.old)) }
    {
        let stamps = covered(alloc, &self.kinds, w)?;
        self.forget_some(w, &stamps);
        let _count = self.touches.len();
        self.kinds.retain(|kind| !kind.is_empty());
        Ok(())
    }
}
