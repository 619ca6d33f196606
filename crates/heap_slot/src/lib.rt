//! A place for a value on the heap: the pointer of a box, or none. It is what a struct that C holds
//! is made from, and into which it is turned back. The first calls are `Slot::of` and
//! `Slot::into_box`.
#![tactic(auto)]

ghost use Rattle.std.specs.Prelude.{◌≡◌, Option, Some, None, IsSome};
ghost use Rattle.heap_slot.specs.Ownership.{slot_owns};

use std::alloc::Allocator;
use std::marker::Model;
use std::ptr;

/// A place for a value on the heap, with the memory that it is from. Where there is a value, the
/// slot owns it and the right to give its block back.
///
/// It cannot be let go: `into_box` takes the value out, and who takes the fields hands on what the
/// slot owns.
pub struct Slot<T, A: Allocator> {
    pub at: *mut T,
    pub alloc: A,
    pub ghost value: { Option T },
}

impl<T, A: Allocator> Model for Slot<T, A> {
    ghost also_owns = { λ s. slot_owns (A.dealloc_token s.alloc) T.row s.at s.value };
}

// It may go to another thread where its value may, and where its memory may be given back there.
unsafe impl<T: Send, A: Allocator + Send> Send for Slot<T, A> {}

impl<T: Drop, A: Allocator> Slot<T, A> {
    /// Makes a slot with no value. It takes no memory.
    pub fn empty(alloc: A) -> Slot<T, A>
        ensures { result.value ≡ None }
    {
        Slot {
            at: ptr::null_mut(),
            alloc,
        }
    }

    /// Makes a slot of a box's value.
    pub fn of(value: Box<T, A>) -> Slot<T, A>
        ensures { result.value ≡ Some value.value }
    {
        let (at, alloc) = Box::into_raw_with_allocator(value);
        Slot { at, alloc }
    }

    /// Makes the box of the slot's value.
    pub fn into_box(self) -> Box<T, A>
        requires { IsSome self.value }
        ensures { self.value ≡ Some result.value }
    {
        let Slot { at, alloc } = self;
        unsafe { Box::from_raw(alloc, at) }
    }
}
