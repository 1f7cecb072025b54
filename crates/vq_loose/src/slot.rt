//! A value on the heap as its pointer, or no value.
//!
//! Source: after the kit's `once_cell`.
ghost use Rattle.std.specs.Prelude.{◌≡◌, Option, Some, None, true, is_none, is_some};
ghost use Rattle.std.specs.Borrow.{sem};
ghost use Rattle.std.specs.Option.{option_map};

use crate::loose::Loose;
use core::mem::replace_with;
use core::ptr::null_mut;
use std::alloc::Global;
use std::marker::Model;

/// What C keeps of a value: the pointer of its box, or null where there is none. A value isn't dropped with it.
pub struct Slot<T> {
    at: *mut T,
    alloc: Global,
    pub ghost value: { Option T },
}

impl<T> Model for Slot<T> {
    ghost use Rattle.vq_loose.specs.Slots.{slot_owns};

    ghost also_owns = { λ s. slot_owns T.row s.alloc s.at s.value };
}

impl<T> Slot<T> {
    ghost use Rattle.vq_loose.specs.Lending.{LendsValue};

    /// No value.
    fn empty(alloc: Global) -> Slot<T>
        ensures { result.value ≡ None }
    {
        Slot {
            at: null_mut(),
            alloc,
        }
    }

    /// The pointer of the value, as that of a box.
    fn into_loose(self) -> Loose<T, Global>
        requires { is_some self.value ≡ true }
        ensures { self.value ≡ Some result.value }
    {
        let Slot { at, alloc } = self;
        Loose { at, alloc }
    }

    /// Whether there is no value.
    pub fn is_empty(&mut self) -> bool
        ensures same { self.new.value ≡ self.old.value }
        ensures empty { result ≡ is_none self.old.value }
    {
        self.at.is_null()
    }

    /// The value.
    pub fn held(&mut self) -> &mut T
        requires { is_some self.old.value ≡ true }
        ensures* writes_back { sem 𝓛 (LendsValue T.row self.entry result) }
        ensures value { self.old.value ≡ Some result.now }
    {
        let at = self.at;
        unsafe { &mut *at }
    }
}

impl<T: Drop> Slot<T> {
    /// The box of the value, which leaves the slot.
    fn taken(self, _nothing: ()) -> (Slot<T>, Box<T>)
        requires { is_some self.value ≡ true }
        ensures empty { result.0.value ≡ None }
        ensures taken { self.value ≡ Some result.1.value }
    {
        let value = self.into_loose().into_box();
        let alloc = *Box::allocator(&value);
        (Slot::empty(alloc), value)
    }

    /// Takes the value out, if there is one: then there is none.
    pub fn take(&mut self) -> Option<Box<T>>
        ensures empty { self.new.value ≡ None }
        ensures taken { option_map (λ b. b.value) result ≡ self.old.value }
    {
        if self.is_empty() {
            None
        } else {
            Some(replace_with(self, (), Slot::taken))
        }
    }
}
