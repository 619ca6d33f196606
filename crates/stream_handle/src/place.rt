//! A stream behind a pointer, or none.
ghost use Rattle.std.specs.Prelude.{◌≡◌, Option, None};
ghost use Rattle.stream_handle.specs.Places.{stream_owns};
ghost use Rattle.stream_job.specs.Streams.{StreamState};

use heap_slot::Slot;
use std::alloc::Global;
use std::marker::Model;
use stream_job::Stream;

/// A place for a stream on the heap. Where there is one, the place owns it.
///
/// It is a slot whose types C can hold: a pointer, and a handle of the heap that takes no bytes.
#[repr(C)]
pub struct Place {
    at: *mut u8,
    alloc: Global,
    pub ghost stream: { Option StreamState },
}

impl Model for Place {
    ghost also_owns = { λ p. stream_owns p.alloc p.at p.stream };
}

// Any thread may have a stream, one at a time.
unsafe impl Send for Place {}

impl Place {
    /// Makes a place of a slot.
    pub fn of(slot: Slot<Stream, Global>) -> Place
        ensures { result.stream ≡ slot.value }
    {
        let Slot { at, alloc } = slot;
        Place {
            at: at as *mut u8,
            alloc,
        }
    }

    /// Makes the slot of a place.
    pub fn into_slot(self) -> Slot<Stream, Global>
        ensures { result.value ≡ self.stream }
    {
        let Place { at, alloc } = self;
        Slot {
            at: at as *mut Stream,
            alloc,
        }
    }

    /// Lets go of a place with no stream.
    pub fn close(self)
        requires { self.stream ≡ None }
    {
        let Place { at: _, alloc: _ } = self;
    }
}
