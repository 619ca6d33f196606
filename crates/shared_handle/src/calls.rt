//! Calls of the registration of a handle on single phases.
ghost use Rattle.std.specs.Prelude.{◌≡◌, ◌≤◌, Some, IsSome, Err, length};
ghost use Rattle.phase_base.specs.declared.limits.TheConstants.{SENDS_MAX};
ghost use Rattle.phase_accum.specs.Sends.{AreSends};
ghost use Rattle.phase_accum.specs.Values.{value_by};
ghost use Rattle.shared_handle.specs.AnyMembers.{op_in, state_in, held_in, asker_in, StillHas};
ghost use Rattle.shared_handle.specs.Calls.{SignalCall, NextCall, WaitCall};
ghost use Rattle.shared_handle.specs.declared.any_asked.AnyAsked.{AnyAsked};
ghost use Rattle.shared_handle.specs.declared.any_member.AnyMember.{AnyMember};

use crate::handle::Handle;
use crate::kept::Held;
use phase_accum::Single;
use phase_core::{Got, SignalRefusal, WaitRefusal};
use phase_shared::Tried;
use std::alloc::Global;

impl Handle {
    /// Signals the registration's phase with these sends and a single or none, and answers that
    /// phase.
    pub fn signal(
        &mut self,
        alloc: Global,
        values: &[i64],
        single: Option<Single>,
    ) -> Result<u64, Tried<SignalRefusal>>
        requires there { IsSome self.old.place.kept }
        requires sends { AreSends values.now }
        requires few { length values.now ≤ SENDS_MAX }
        ensures call { (m : AnyMember) → held_in self.old.place.kept ≡ Some m
            → StillHas (held_in self.new.place.kept) (λ n. (op_in n ≡ op_in m)
            × SignalCall (value_by (op_in m)) values.now single (state_in m) (state_in n) result) }
        ensures asks { (a : AnyAsked) → asker_in self.old.place.kept ≡ Some a
            → (result ≡ Err Tried.Busy) × (self.new.place.kept ≡ self.old.place.kept) }
    {
        let mut kept = self.take(alloc);
        let Held::Rests(member) = &mut kept.held else {
            self.put(kept);
            return Err(Tried::Busy);
        };
        let answer = member.signal(values, single);
        self.put(kept);
        answer
    }

    /// Signals the registration's phase, and then waits where that is answered at once.
    pub fn next(
        &mut self,
        alloc: Global,
        values: &[i64],
        single: Option<Single>,
    ) -> Result<(u64, Option<Got>), Tried<SignalRefusal>>
        requires there { IsSome self.old.place.kept }
        requires sends { AreSends values.now }
        requires few { length values.now ≤ SENDS_MAX }
        ensures call { (m : AnyMember) → held_in self.old.place.kept ≡ Some m
            → StillHas (held_in self.new.place.kept) (λ n. (op_in n ≡ op_in m)
            × NextCall (value_by (op_in m)) values.now single (state_in m) (state_in n) result) }
        ensures asks { (a : AnyAsked) → asker_in self.old.place.kept ≡ Some a
            → (result ≡ Err Tried.Busy) × (self.new.place.kept ≡ self.old.place.kept) }
    {
        let mut kept = self.take(alloc);
        let Held::Rests(member) = &mut kept.held else {
            self.put(kept);
            return Err(Tried::Busy);
        };
        let answer = member.next(values, single);
        self.put(kept);
        answer
    }

    /// Waits for the registration's phase, and answers it with its value, or that no more will
    /// come.
    pub fn wait(&mut self, alloc: Global) -> Result<Got, Tried<WaitRefusal>>
        requires { IsSome self.old.place.kept }
        ensures call { (m : AnyMember) → held_in self.old.place.kept ≡ Some m
            → StillHas (held_in self.new.place.kept) (λ n. (op_in n ≡ op_in m)
            × WaitCall (value_by (op_in m)) (state_in m) (state_in n) result) }
        ensures asks { (a : AnyAsked) → asker_in self.old.place.kept ≡ Some a
            → (result ≡ Err Tried.Busy) × (self.new.place.kept ≡ self.old.place.kept) }
    {
        let mut kept = self.take(alloc);
        let Held::Rests(member) = &mut kept.held else {
            self.put(kept);
            return Err(Tried::Busy);
        };
        let answer = member.wait();
        self.put(kept);
        answer
    }
}
