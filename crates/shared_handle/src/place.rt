//! A registration behind a pointer, or none.
ghost use Rattle.std.specs.Prelude.{◌≡◌, Option, None};
ghost use Rattle.shared_handle.specs.Places.{kept_owns};
ghost use Rattle.shared_handle.specs.declared.kept.Kept.{Kept};

use crate::kept::Kept;
use heap_slot::Slot;
use std::alloc::Global;
use std::marker::Model;

/// A place for a registration on the heap. Where there is one, the place owns it.
///
/// It is a slot whose types C can hold: a pointer, and a handle of the heap that takes no bytes.
#[repr(C)]
pub struct Place {
    at: *mut u8,
    alloc: Global,
    pub ghost kept: { Option Kept },
}

impl Model for Place {
    ghost also_owns = { λ p. kept_owns p.alloc p.at p.kept };
}

// Any thread may have a registration, one at a time.
unsafe impl Send for Place {}

impl Place {
    /// Makes a place of a slot.
    pub fn of(slot: Slot<Kept, Global>) -> Place
        ensures { result.kept ≡ slot.value }
    {
        let Slot { at, alloc } = slot;
        Place {
            at: at as *mut u8,
            alloc,
        }
    }

    /// Makes the slot of a place.
    pub fn into_slot(self) -> Slot<Kept, Global>
        ensures { result.value ≡ self.kept }
    {
        let Place { at, alloc } = self;
        Slot {
            at: at as *mut Kept,
            alloc,
        }
    }

    /// Lets go of a place with no registration.
    pub fn close(self)
        requires { self.kept ≡ None }
    {
        let Place { at: _, alloc: _ } = self;
    }
}
