//! What C holds of a registration.
ghost use Rattle.std.specs.Prelude.{◌≡◌, Some, None, true, is_some, IsSome};
ghost use Rattle.shared_handle.specs.AnyMembers.{held_in, is_kept};

use crate::any_member::AnyMember;
use crate::kept::{Held, Kept};
use crate::place::Place;
use heap_slot::Slot;
use std::alloc::Global;
use std::mem;

/// A handle of a registration. C keeps it, and writes it once: with zeros it has none.
#[repr(C)]
pub struct Handle {
    pub place: Place,
    /// Whether there is a registration.
    pub live: bool,
    ghost fits: { live ≡ is_some place.kept },
    ghost full: { live ≡ is_kept place.kept },
}

/// Answers the value, which may go to another thread: C may hand on what it keeps.
fn kept_by_c<T: Send>(value: T) -> T
    ensures { result ≡ value }
{
    value
}

impl Handle {
    /// Takes the registration out. The handle has none then.
    pub fn take(&mut self, alloc: Global) -> Box<Kept, Global>
        requires { IsSome self.old.place.kept }
        ensures full { is_kept (Some result.value) ≡ true }
        ensures value { self.old.place.kept ≡ Some result.value }
        ensures none { self.new.place.kept ≡ None }
    {
        let none = Handle {
            place: Place::of(Slot::empty(alloc)),
            live: false,
        };
        let Handle { place, live: _ } = mem::replace(self, none);
        place.into_slot().into_box()
    }

    /// Puts a registration in.
    pub fn put(&mut self, kept: Box<Kept, Global>)
        requires none { self.old.place.kept ≡ None }
        requires full { is_kept (Some kept.value) ≡ true }
        ensures { self.new.place.kept ≡ Some kept.value }
    {
        let one = Handle {
            place: Place::of(Slot::of(kept)),
            live: true,
        };
        let Handle { place, live: _ } = mem::replace(self, kept_by_c(one));
        place.close();
    }

    /// Puts a registration in, into a block that was taken for it.
    pub fn put_member(&mut self, room: Box<Kept, Global>, member: AnyMember)
        requires { self.old.place.kept ≡ None }
        ensures { held_in self.new.place.kept ≡ Some member }
    {
        let mut kept = room;
        kept.held = Held::Rests(member);
        self.put(kept);
    }
}
