//! Calls by which the registration of a handle asks for its next phase, and ends that.
ghost use Rattle.std.specs.Prelude.{◌≡◌, ◌≢◌, ◌⊎◌, Some, None, IsSome, true, false, IfOk, IfErr, OnErr};
ghost use Rattle.phase_accum.specs.Values.{value_by};
ghost use Rattle.handle_numbers.specs.declared.numbers.TheConstants.{GOOD, ENDED, SIGNALLED, ASKED, BUSY, NOT_ASKED};
ghost use Rattle.shared_handle.specs.AnyMembers.{op_in, op_asked, state_in, asked_state, held_in, asker_in, StillHas, HasAsked};
ghost use Rattle.shared_handle.specs.Calls.{NextCall};
ghost use Rattle.shared_handle.specs.Members.{sent_value};
ghost use Rattle.shared_handle.specs.Told.{AsksFrom, EndsAsk, next_status, tried_status};
ghost use Rattle.shared_handle.specs.declared.any_asked.AnyAsked.{AnyAsked};
ghost use Rattle.shared_handle.specs.declared.any_member.AnyMember.{AnyMember};

use crate::handle::Handle;
use crate::kept::Held;
use handle_numbers::numbers::*;
use phase_core::{Got, SignalRefusal};
use phase_shared::Tried;
use std::alloc::Global;
use std::mem;

impl Handle {
    /// Whether the registration asks.
    pub fn asks(&mut self, alloc: Global) -> bool
        requires { IsSome self.old.place.kept }
        ensures asks { (a : AnyAsked) → asker_in self.old.place.kept ≡ Some a → result ≡ true }
        ensures rests { (m : AnyMember) → held_in self.old.place.kept ≡ Some m
            → result ≡ false }
        ensures same { self.new.place.kept ≡ self.old.place.kept }
    {
        let kept = self.take(alloc);
        let asks = match &kept.held {
            Held::Asks(_) => true,
            Held::Rests(_) => false,
            Held::Nothing => false,
        };
        self.put(kept);
        asks
    }

    /// Asks for the registration's next phase, with this send or none, and tells whether it does.
    pub fn ask(&mut self, alloc: Global, value: Option<i64>) -> bool
        requires { IsSome self.old.place.kept }
        ensures asks { (m : AnyMember) → held_in self.old.place.kept ≡ Some m → result ≡ true
            → HasAsked (asker_in self.new.place.kept) (λ a. AsksFrom (sent_value value) m a) }
        ensures twice { (a : AnyAsked) → asker_in self.old.place.kept ≡ Some a
            → result ≡ false }
        ensures same { result ≡ false → self.new.place.kept ≡ self.old.place.kept }
    {
        let mut kept = self.take(alloc);
        let (held, asks) = match mem::replace(&mut kept.held, Held::Nothing) {
            Held::Rests(member) => match member.ask(value) {
                Ok(asked) => (Held::Asks(asked), true),
                Err(back) => (Held::Rests(back), false),
            },
            held => (held, false),
        };
        kept.held = held;
        self.put(kept);
        asks
    }

    /// Looks whether the next phase that the registration asked for was made.
    pub fn look(
        &mut self,
        alloc: Global,
    ) -> Result<Result<(u64, Option<Got>), Tried<SignalRefusal>>, i32>
        requires { IsSome self.old.place.kept }
        ensures ended { (a : AnyAsked) → asker_in self.old.place.kept ≡ Some a
            → IfOk result (λ answer. EndsAsk a (held_in self.new.place.kept) answer) }
        ensures asks { (a : AnyAsked) → asker_in self.old.place.kept ≡ Some a
            → IfErr result (λ status. status ≡ ASKED) }
        ensures status { IfOk result (λ answer. tried_status next_status answer ≡ GOOD) }
        ensures rests { asker_in self.old.place.kept ≡ None → result ≡ Err NOT_ASKED }
        ensures err { OnErr result (self.new.place.kept ≡ self.old.place.kept) }
    {
        let mut kept = self.take(alloc);
        let (held, told) = match mem::replace(&mut kept.held, Held::Nothing) {
            Held::Asks(asked) => match asked.look() {
                Ok((member, answer)) => (Held::Rests(member), Ok(answer)),
                Err(back) => (Held::Asks(back), Err(ASKED)),
            },
            held => (held, Err(NOT_ASKED)),
        };
        kept.held = held;
        self.put(kept);
        told
    }

    /// Takes the turn, where it is free, and serves those that asked for so many looks.
    pub fn serve(
        &mut self,
        alloc: Global,
        looks: u32,
    ) -> Result<Result<(u64, Option<Got>), Tried<SignalRefusal>>, i32>
        requires { IsSome self.old.place.kept }
        ensures ended { (a : AnyAsked) → asker_in self.old.place.kept ≡ Some a
            → IfOk result (λ answer. EndsAsk a (held_in self.new.place.kept) answer) }
        ensures asks { (a : AnyAsked) → asker_in self.old.place.kept ≡ Some a
            → IfErr result (λ status. (status ≡ ASKED) ⊎ (status ≡ BUSY)) }
        ensures status { IfOk result (λ answer. (tried_status next_status answer ≢ SIGNALLED)
            × (tried_status next_status answer ≢ ENDED)) }
        ensures rests { asker_in self.old.place.kept ≡ None → result ≡ Err NOT_ASKED }
        ensures err { OnErr result (self.new.place.kept ≡ self.old.place.kept) }
    {
        let mut kept = self.take(alloc);
        let (held, told) = match mem::replace(&mut kept.held, Held::Nothing) {
            Held::Asks(asked) => match asked.serve(looks) {
                Ok((member, answer)) => (Held::Rests(member), Ok(answer)),
                Err((back, is_made)) => {
                    let status = if is_made { ASKED } else { BUSY };
                    (Held::Asks(back), Err(status))
                }
            },
            held => (held, Err(NOT_ASKED)),
        };
        kept.held = held;
        self.put(kept);
        told
    }

    /// Takes back what the registration asked for, where the turn is free.
    pub fn take_back(
        &mut self,
        alloc: Global,
    ) -> Result<Result<(u64, Option<Got>), Tried<SignalRefusal>>, i32>
        requires { IsSome self.old.place.kept }
        ensures ended { (a : AnyAsked) → asker_in self.old.place.kept ≡ Some a
            → IfOk result (λ answer. EndsAsk a (held_in self.new.place.kept) answer) }
        ensures asks { (a : AnyAsked) → asker_in self.old.place.kept ≡ Some a
            → IfErr result (λ status. status ≡ BUSY) }
        ensures status { IfOk result (λ answer. tried_status next_status answer ≢ ENDED) }
        ensures rests { asker_in self.old.place.kept ≡ None → result ≡ Err NOT_ASKED }
        ensures err { OnErr result (self.new.place.kept ≡ self.old.place.kept) }
    {
        let mut kept = self.take(alloc);
        let (held, told) = match mem::replace(&mut kept.held, Held::Nothing) {
            Held::Asks(asked) => match asked.take_back() {
                Ok((member, answer)) => (Held::Rests(member), Ok(answer)),
                Err(back) => (Held::Asks(back), Err(BUSY)),
            },
            held => (held, Err(NOT_ASKED)),
        };
        kept.held = held;
        self.put(kept);
        told
    }
}
