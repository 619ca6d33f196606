//! A phaser behind a pointer, or none.
ghost use Rattle.std.specs.Prelude.{◌≡◌, Option, None};
ghost use Rattle.phase_handle.specs.Places.{place_owns};
ghost use Rattle.phase_any.specs.declared.any_phaser.AnyPhaser.{AnyPhaser};

use heap_slot::Slot;
use phase_any::AnyPhaser;
use std::alloc::Global;
use std::marker::Model;

/// A place for a phaser on the heap. Where there is one, the place owns it.
///
/// It is a slot whose types C can hold: a pointer, and a handle of the heap that takes no bytes.
#[repr(C)]
pub struct Place {
    at: *mut u8,
    alloc: Global,
    pub ghost phaser: { Option AnyPhaser },
}

impl Model for Place {
    ghost also_owns = { λ p. place_owns p.alloc p.at p.phaser };
}

// Any thread may have a phaser, one at a time.
unsafe impl Send for Place {}

impl Place {
    /// Makes a place of a slot.
    pub fn of(slot: Slot<AnyPhaser, Global>) -> Place
        ensures { result.phaser ≡ slot.value }
    {
        let Slot { at, alloc } = slot;
        Place {
            at: at as *mut u8,
            alloc,
        }
    }

    /// Makes the slot of a place.
    pub fn into_slot(self) -> Slot<AnyPhaser, Global>
        ensures { result.value ≡ self.phaser }
    {
        let Place { at, alloc } = self;
        Slot {
            at: at as *mut AnyPhaser,
            alloc,
        }
    }

    /// Lets go of a place with no phaser.
    pub fn close(self)
        requires { self.phaser ≡ None }
    {
        let Place { at: _, alloc: _ } = self;
    }
}
