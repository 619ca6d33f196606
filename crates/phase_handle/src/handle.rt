//! What C holds of a phaser.
ghost use Rattle.std.specs.Prelude.{◌≡◌, Some, None, is_some, IsSome};

use crate::place::Place;
use heap_slot::Slot;
use phase_any::AnyPhaser;
use std::alloc::Global;
use std::mem;

/// A handle of a phaser. C keeps it, and writes it once: with zeros it has no phaser.
#[repr(C)]
pub struct Handle {
    pub place: Place,
    /// Whether there is a phaser.
    pub live: bool,
    ghost fits: { live ≡ is_some place.phaser },
}

/// Answers the value, which may go to another thread: C may hand on what it keeps.
fn kept_by_c<T: Send>(value: T) -> T
    ensures { result ≡ value }
{
    value
}

impl Handle {
    /// Takes the phaser out. The handle has none then.
    pub fn take(&mut self, alloc: Global) -> Box<AnyPhaser, Global>
        requires { IsSome self.old.place.phaser }
        ensures value { self.old.place.phaser ≡ Some result.value }
        ensures none { self.new.place.phaser ≡ None }
    {
        let none = Handle {
            place: Place::of(Slot::empty(alloc)),
            live: false,
        };
        let Handle { place, live: _ } = mem::replace(self, none);
        place.into_slot().into_box()
    }

    /// Puts a phaser in.
    pub fn put(&mut self, phaser: Box<AnyPhaser, Global>)
        requires { self.old.place.phaser ≡ None }
        ensures { self.new.place.phaser ≡ Some phaser.value }
    {
        let one = Handle {
            place: Place::of(Slot::of(phaser)),
            live: true,
        };
        let Handle { place, live: _ } = mem::replace(self, kept_by_c(one));
        place.close();
    }
}
