//! A live layer as C holds it.
ghost use Rattle.std.specs.Prelude.{◌≡◌, Option};
ghost use Rattle.std.specs.Borrow.{sem};
ghost use Rattle.vq_layer.specs.Layer.{Layer};

use std::alloc::Global;
use std::marker::Model;
use vq_layer::LiveLayer;
use vq_loose::Slot;

/// A layer as its pointer, which C keeps, or null where none is open. It owns the layer, and has to be closed.
#[repr(C)]
pub struct Handle {
    at: *mut u8,
    alloc: Global,
    pub ghost value: { Option Layer },
}

impl Model for Handle {
    ghost use Rattle.vq_layer_c.specs.Handles.{holds};

    ghost also_owns = { λ h. holds h.alloc h.at h.value };
}

impl Handle {
    ghost use Rattle.vq_layer_c.specs.Lending.{LendsSlot};

    /// The same pointer as what it is in Rattle.
    pub(crate) fn slot(&mut self) -> &mut Slot<LiveLayer>
        ensures* writes_back { sem 𝓛 (LendsSlot self.entry result) }
        ensures same { result.now.value ≡ self.old.value }
    {
        let at = self as *mut Handle as *mut Slot<LiveLayer>;
        unsafe { &mut *at }
    }
}
