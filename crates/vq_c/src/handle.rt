//! An object as C holds it.
//!
//! Source: this project's own.
ghost use Rattle.std.specs.Prelude.{◌≡◌, Option};
ghost use Rattle.std.specs.Borrow.{sem};
ghost use Rattle.std.specs.Coded.{coded_option};
ghost use Rattle.vq_c.specs.contracts.object.Object as object_row;
ghost use Rattle.vq_c.specs.declared.object.Object.{Object as AnyObject};

use crate::object::Object;
use std::alloc::Global;
use std::marker::Model;
use vq_loose::Slot;

/// An object as its pointer, which C keeps, or null where none is open. It owns the object, and has to be closed.
#[repr(C)]
pub struct Handle {
    at: *mut u8,
    alloc: Global,
    pub ghost value: { Option AnyObject } by { coded_option object_row.the_row.coded },
}

impl Model for Handle {
    ghost use Rattle.vq_c.specs.Handles.{holds};

    ghost also_owns = { λ h. holds h.alloc h.at h.value };
}

impl Handle {
    ghost use Rattle.vq_c.specs.Lending.{LendsSlot};

    /// The same pointer as what it is in Rattle.
    pub(crate) fn slot(&mut self) -> &mut Slot<Object>
        ensures* writes_back { sem 𝓛 (LendsSlot self.entry result) }
        ensures same { result.now.value ≡ self.old.value }
    {
        let at = self as *mut Handle as *mut Slot<Object>;
        unsafe { &mut *at }
    }
}
