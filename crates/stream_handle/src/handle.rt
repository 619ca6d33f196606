//! What C holds of a stream.
ghost use Rattle.std.specs.Prelude.{◌≡◌, Some, None, is_some, IsSome};

use crate::place::Place;
use heap_slot::Slot;
use std::alloc::Global;
use std::mem;
use stream_job::Stream;

/// A handle of a stream. C keeps it, and writes it once: with zeros it has no stream.
#[repr(C)]
pub struct Handle {
    pub place: Place,
    /// Whether there is a stream.
    pub live: bool,
    ghost fits: { live ≡ is_some place.stream },
}

/// Answers the value, which may go to another thread: C may hand on what it keeps.
fn kept_by_c<T: Send>(value: T) -> T
    ensures { result ≡ value }
{
    value
}

impl Handle {
    /// Takes the stream out. The handle has none then.
    pub fn take(&mut self, alloc: Global) -> Box<Stream, Global>
        requires { IsSome self.old.place.stream }
        ensures value { self.old.place.stream ≡ Some result.value }
        ensures none { self.new.place.stream ≡ None }
    {
        let none = Handle {
            place: Place::of(Slot::empty(alloc)),
            live: false,
        };
        let Handle { place, live: _ } = mem::replace(self, none);
        place.into_slot().into_box()
    }

    /// Puts a stream in.
    pub fn put(&mut self, stream: Box<Stream, Global>)
        requires { self.old.place.stream ≡ None }
        ensures { self.new.place.stream ≡ Some stream.value }
    {
        let one = Handle {
            place: Place::of(Slot::of(stream)),
            live: true,
        };
        let Handle { place, live: _ } = mem::replace(self, kept_by_c(one));
        place.close();
    }
}
