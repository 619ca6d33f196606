//! Calls by which registrations of handles come and go, and what is read of them.
ghost use Rattle.std.specs.Prelude.{◌≡◌, Some, None, IsSome, true, false, Err, IfOk, OnErr};
ghost use Rattle.handle_numbers.specs.Numbers.{mode_number, op_number};
ghost use Rattle.shared_handle.specs.AnyMembers.{op_in, state_in, state_of, asked_state, held_in, asker_in, StillHas};
ghost use Rattle.shared_handle.specs.Calls.{AddCall, AddNowCall};
ghost use Rattle.shared_handle.specs.Members.{IsInItsHistory, IsOnlyOne, HasLeft};
ghost use Rattle.shared_handle.specs.Told.{IsStanding, IsAskedAt};
ghost use Rattle.shared_handle.specs.declared.any_asked.AnyAsked.{AnyAsked};
ghost use Rattle.shared_handle.specs.declared.any_member.AnyMember.{AnyMember};

use crate::any_member::AnyMember;
use crate::handle::Handle;
use crate::kept::Held;
use crate::member_exports::Standing;
use handle_numbers::{mode_code, op_code};
use phase_accum::Op;
use phase_base::{Entry, Mode};
use phase_core::RegisterRefusal;
use phase_shared::Tried;
use std::alloc::{AllocError, Global};
use std::mem;

// Where a registration stands, in the numbers of C.
fn standing_of(number: u64, entry: Entry, op: Op) -> Standing
    ensures number { result.number ≡ number }
    ensures signal_phase { result.signal_phase ≡ entry.signal_phase }
    ensures wait_phase { result.wait_phase ≡ entry.wait_phase }
    ensures mode { result.mode ≡ mode_number entry.mode }
    ensures operation { result.operation ≡ op_number op }
{
    Standing {
        number,
        signal_phase: entry.signal_phase,
        wait_phase: entry.wait_phase,
        mode: mode_code(entry.mode),
        operation: op_code(op),
    }
}

impl Handle {
    /// Registers a child in a mode that the registration's mode holds, at both of its phases.
    pub fn register(
        &mut self,
        alloc: Global,
        mode: Mode,
    ) -> Result<Result<AnyMember, Tried<RegisterRefusal>>, AllocError>
        requires { IsSome self.old.place.kept }
        ensures call { IfOk result (λ answer. (m : AnyMember)
            → held_in self.old.place.kept ≡ Some m
            → StillHas (held_in self.new.place.kept) (λ n. (op_in n ≡ op_in m)
            × AddCall mode (state_in m) (state_in n) (state_of answer)
            × IfOk answer (λ child. op_in child ≡ op_in m))) }
        ensures asks { IfOk result (λ answer. (a : AnyAsked)
            → asker_in self.old.place.kept ≡ Some a
            → (answer ≡ Err Tried.Busy) × (self.new.place.kept ≡ self.old.place.kept)) }
        ensures err { OnErr result (self.new.place.kept ≡ self.old.place.kept) }
    {
        let mut kept = self.take(alloc);
        let Held::Rests(member) = &mut kept.held else {
            self.put(kept);
            return Ok(Err(Tried::Busy));
        };
        let answer = member.add(mode);
        self.put(kept);
        answer
    }

    /// Registers a child in `Wait`, at the first phase that is not complete.
    pub fn register_now(
        &mut self,
        alloc: Global,
    ) -> Result<Result<AnyMember, Tried<RegisterRefusal>>, AllocError>
        requires { IsSome self.old.place.kept }
        ensures call { IfOk result (λ answer. (m : AnyMember)
            → held_in self.old.place.kept ≡ Some m
            → StillHas (held_in self.new.place.kept) (λ n. (op_in n ≡ op_in m)
            × AddNowCall (state_in m) (state_in n) (state_of answer)
            × IfOk answer (λ child. op_in child ≡ op_in m))) }
        ensures asks { IfOk result (λ answer. (a : AnyAsked)
            → asker_in self.old.place.kept ≡ Some a
            → (answer ≡ Err Tried.Busy) × (self.new.place.kept ≡ self.old.place.kept)) }
        ensures err { OnErr result (self.new.place.kept ≡ self.old.place.kept) }
    {
        let mut kept = self.take(alloc);
        let Held::Rests(member) = &mut kept.held else {
            self.put(kept);
            return Ok(Err(Tried::Busy));
        };
        let answer = member.add_now();
        self.put(kept);
        answer
    }

    /// Ends the registration, and tells whether it did.
    pub fn leave(&mut self, alloc: Global) -> bool
        requires { IsSome self.old.place.kept }
        ensures left { (m : AnyMember) → held_in self.old.place.kept ≡ Some m → result ≡ true
            → HasLeft (state_in m) }
        ensures asks { (a : AnyAsked) → asker_in self.old.place.kept ≡ Some a
            → result ≡ false }
        ensures none { result ≡ true → self.new.place.kept ≡ None }
        ensures alone { (m : AnyMember) → held_in self.old.place.kept ≡ Some m
            → IsOnlyOne (state_in m) → result ≡ true }
        ensures same { result ≡ false → self.new.place.kept ≡ self.old.place.kept }
    {
        let mut kept = self.take(alloc);
        match mem::replace(&mut kept.held, Held::Nothing) {
            Held::Rests(member) => match member.leave() {
                Ok(()) => return true,
                Err(back) => kept.held = Held::Rests(back),
            },
            held => kept.held = held,
        }
        self.put(kept);
        false
    }

    /// Returns where the registration stands, or stood when it asked.
    pub fn standing(&mut self, alloc: Global) -> Standing
        requires { IsSome self.old.place.kept }
        ensures stands { (m : AnyMember) → held_in self.old.place.kept ≡ Some m
            → IsStanding m result }
        ensures member { (m : AnyMember) → held_in self.old.place.kept ≡ Some m
            → IsInItsHistory (state_in m) }
        ensures asked { (a : AnyAsked) → asker_in self.old.place.kept ≡ Some a
            → IsAskedAt a result × IsInItsHistory (asked_state a).reg }
        ensures same { self.new.place.kept ≡ self.old.place.kept }
    {
        let kept = self.take(alloc);
        let standing = match &kept.held {
            Held::Rests(member) => {
                member.look();
                standing_of(member.number(), member.entry(), member.op())
            }
            Held::Asks(asked) => standing_of(asked.number(), asked.entry(), asked.op()),
            Held::Nothing => unreachable!(),
        };
        self.put(kept);
        standing
    }

    /// Returns how far the phaser is, as far as the turns that have ended tell.
    pub fn told(&mut self, alloc: Global) -> (u64, u64)
        requires { IsSome self.old.place.kept }
        ensures { self.new.place.kept ≡ self.old.place.kept }
    {
        let kept = self.take(alloc);
        let told = match &kept.held {
            Held::Rests(member) => member.told(),
            Held::Asks(asked) => asked.told(),
            Held::Nothing => unreachable!(),
        };
        self.put(kept);
        told
    }
}
