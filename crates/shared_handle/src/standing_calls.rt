//! Calls that tell of the phaser of a registration, and close it.
ghost use Rattle.std.specs.Prelude.{◌≡◌, Some, IsSome, Err, OnErr};
ghost use Rattle.shared_handle.specs.AnyMembers.{op_in, state_in, held_in, asker_in, StillHas};
ghost use Rattle.shared_handle.specs.Calls.{MissingCall};
ghost use Rattle.shared_handle.specs.declared.any_asked.AnyAsked.{AnyAsked};
ghost use Rattle.shared_handle.specs.declared.any_member.AnyMember.{AnyMember};

use crate::handle::Handle;
use crate::kept::Held;
use phase_core::{NoTask, Standing};
use phase_shared::Tried;
use std::alloc::Global;

impl Handle {
    /// Tells how the phaser stands, and writes who is missing into the first places, as many as
    /// there are of both.
    pub fn missing(&mut self, alloc: Global, places: &mut [u64]) -> Result<Standing, Tried<NoTask>>
        requires { IsSome self.old.place.kept }
        ensures call { (m : AnyMember) → held_in self.old.place.kept ≡ Some m
            → StillHas (held_in self.new.place.kept) (λ n. (op_in n ≡ op_in m)
            × MissingCall places.old places.new (state_in m) (state_in n) result) }
        ensures asks { (a : AnyAsked) → asker_in self.old.place.kept ≡ Some a
            → (result ≡ Err Tried.Busy) × (self.new.place.kept ≡ self.old.place.kept) }
        ensures err { OnErr result (places.new ≡ places.old) }
    {
        let mut kept = self.take(alloc);
        let Held::Rests(member) = &mut kept.held else {
            self.put(kept);
            return Err(Tried::Busy);
        };
        let answer = member.missing(places);
        self.put(kept);
        answer
    }

    /// Closes the phaser, for ever.
    pub fn close(&mut self, alloc: Global)
        requires { IsSome self.old.place.kept }
        ensures { self.new.place.kept ≡ self.old.place.kept }
    {
        let kept = self.take(alloc);
        match &kept.held {
            Held::Rests(member) => member.close(),
            Held::Asks(asked) => asked.close(),
            Held::Nothing => {}
        }
        self.put(kept);
    }

    /// Returns whether the phaser was closed.
    pub fn is_closed(&mut self, alloc: Global) -> bool
        requires { IsSome self.old.place.kept }
        ensures { self.new.place.kept ≡ self.old.place.kept }
    {
        let kept = self.take(alloc);
        let is_closed = match &kept.held {
            Held::Rests(member) => member.is_closed(),
            Held::Asks(asked) => asked.is_closed(),
            Held::Nothing => unreachable!(),
        };
        self.put(kept);
        is_closed
    }
}
