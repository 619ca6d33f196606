//! A member under one of the operations.
ghost use Rattle.std.specs.Prelude.{◌≡◌, ◌≢◌, ◌↔◌, ◌<◌, ◌≤◌, [], ◌∷◌, Some, Err, IfOk, IfErr, IsOk, length};
ghost use Rattle.phase_accum.specs.Sends.{AreSends, IsSend};
ghost use Rattle.phase_base.specs.Members.{entry_of};
ghost use Rattle.phase_history.specs.Histories.{members_of};
ghost use Rattle.phase_accum.specs.Values.{value_by};
ghost use Rattle.phase_shared.specs.Blocks.{WaitsBlock};
ghost use Rattle.phase_shared.specs.Calls.{Tries};
ghost use Rattle.stream_members.specs.Members.{limits_on, IsMember, Stays, IsAlone, Puts, HasLeftPhaser};
ghost use Rattle.stream_members.specs.AnyMembers.{member_in, member_op, left_in, left_op, room_for, AddsAny, AddsAnyNow};

use crate::any_left::AnyLeft;
use crate::member::Member;
use crate::places::Places;
use crate::refusal::PutRefusal;
use phase_accum::{Any, Greatest, Least, Outcome, Pending, Product, Single, Sum};
use phase_base::{Entry, Mode, Op};
use phase_core::{GotBlock, RegisterRefusal, SignalRefusal, WaitRefusal};
use phase_shared::Tried;
use std::sync::Wait;

/// A member, by the operation of its phaser. Each call is the one of `Member` of the same name, and
/// `try_put` a `try_put_all` with a place of its own.
///
/// **End.** It cannot be thrown away. `leave` and `try_leave` end it, and give an `AnyLeft`.
pub enum AnyMember<'a> {
    Sum(Member<'a, Sum>),
    Product(Member<'a, Product>),
    Least(Member<'a, Least>),
    Greatest(Member<'a, Greatest>),
    Any(Member<'a, Any>),
}

// The call on the member, whichever operation it has.
macro_rules! each {
    ($member:expr, $one:ident => $call:expr) => {
        match $member {
            AnyMember::Sum($one) => $call,
            AnyMember::Product($one) => $call,
            AnyMember::Least($one) => $call,
            AnyMember::Greatest($one) => $call,
            AnyMember::Any($one) => $call,
        }
    };
}

// The call that gives a child, which has the operation of its parent.
macro_rules! each_child {
    ($member:expr, $one:ident => $call:expr) => {
        match $member {
            AnyMember::Sum($one) => match $call {
                Ok(child) => Ok(AnyMember::Sum(child)),
                Err(refusal) => Err(refusal),
            },
            AnyMember::Product($one) => match $call {
                Ok(child) => Ok(AnyMember::Product(child)),
                Err(refusal) => Err(refusal),
            },
            AnyMember::Least($one) => match $call {
                Ok(child) => Ok(AnyMember::Least(child)),
                Err(refusal) => Err(refusal),
            },
            AnyMember::Greatest($one) => match $call {
                Ok(child) => Ok(AnyMember::Greatest(child)),
                Err(refusal) => Err(refusal),
            },
            AnyMember::Any($one) => match $call {
                Ok(child) => Ok(AnyMember::Any(child)),
                Err(refusal) => Err(refusal),
            },
        }
    };
}

// The call with the places of this operation, or with none where they are of another.
macro_rules! put_all {
    ($operation:ident, $one:ident, $values:ident, $single:ident, $places:ident) => {
        match $places {
            Places::$operation(places) => $one.try_put_all($values, $single, places),
            _ => $one.try_put_all($values, $single, &mut []),
        }
    };
}

impl<'a> AnyMember<'a> {
    /// Says what holds of it wherever it was kept meanwhile, as in a list or under a lock. It does
    /// nothing.
    pub fn look(&self)
        ensures { IsMember (member_in self.now) }
    {
        each!(self, one => one.look())
    }

    /// Returns its number, which nobody else has on its phaser.
    pub fn number(&self) -> u64
        ensures { result ≡ (member_in self.now).number }
    {
        each!(self, one => one.number())
    }

    /// Returns its mode and its phases. It takes no turn.
    pub fn entry(&self) -> Entry
        ensures { entry_of (members_of (member_in self.now).seen) (member_in self.now).number
            ≡ Some result }
    {
        each!(self, one => one.entry())
    }

    /// Returns how many phases from its signal phase on are not ahead, as far as the turns that
    /// have ended tell. It takes no turn. It is a hint for how much to put, and no contract speaks
    /// of it.
    pub fn room(&self) -> u64 {
        each!(self, one => one.room())
    }

    /// Returns how many phases from its wait phase on are complete, as far as the turns that have
    /// ended tell, and none where nobody is left to signal. It takes no turn. It is a hint for how
    /// much to get, and no contract speaks of it.
    pub fn ready(&self) -> u64 {
        each!(self, one => one.ready())
    }

    /// Signals its phase with this value as its one send, and a single or none, and answers that
    /// phase. A refused value is not held. It takes no memory.
    pub fn try_put(&mut self, value: i64, single: Option<Single>) -> Result<u64, PutRefusal>
        ensures call { Puts (value ∷ []) single (member_in self.old) (member_in self.new) result }
        ensures stays { Stays (member_in self.old) (member_in self.new) }
        ensures op { member_op self.new ≡ member_op self.old }
        ensures bad_value { (result ≡ Err PutRefusal.BadValue) ↔ (IsSend value → ⊥) }
        ensures room { result ≢ Err PutRefusal.TooMany }
        ensures known { result ≢ Err (PutRefusal.Refused SignalRefusal.NoTask) }
        // Where it is the only one that it has seen, nobody is in its way.
        ensures alone { IsAlone (member_in self.old) → result ≢ Err PutRefusal.Busy }
    {
        each!(self, one => one.try_put_all(&[value], single, &mut [Pending::new()]))
    }

    /// Signals as many phases in a row as there are values, its own first, with one send each and a
    /// single for all of them or none, and answers the first phase. A refused signal signals
    /// nothing, and none of the values is held. It takes no memory: the places have the sends
    /// meanwhile.
    pub fn try_put_all(
        &mut self,
        values: &[i64],
        single: Option<Single>,
        places: &mut Places,
    ) -> Result<u64, PutRefusal>
        ensures call { Puts values.now single (member_in self.old) (member_in self.new) result }
        ensures stays { Stays (member_in self.old) (member_in self.new) }
        ensures op { member_op self.new ≡ member_op self.old }
        ensures too_many { (result ≡ Err PutRefusal.TooMany)
            ↔ (room_for (member_op self.old) places.old < length values.now) }
        ensures bad_value { (result ≡ Err PutRefusal.BadValue)
            ↔ ((length values.now ≤ room_for (member_op self.old) places.old)
            × (AreSends values.now → ⊥)) }
        ensures known { result ≢ Err (PutRefusal.Refused SignalRefusal.NoTask) }
        ensures alone { IsAlone (member_in self.old) → result ≢ Err PutRefusal.Busy }
        ensures places { (op : Op) → room_for op places.new ≡ room_for op places.old }
    {
        match self {
            AnyMember::Sum(one) => put_all!(Sum, one, values, single, places),
            AnyMember::Product(one) => put_all!(Product, one, values, single, places),
            AnyMember::Least(one) => put_all!(Least, one, values, single, places),
            AnyMember::Greatest(one) => put_all!(Greatest, one, values, single, places),
            AnyMember::Any(one) => put_all!(Any, one, values, single, places),
        }
    }

    /// Waits for its phase, and answers it with the number of phases that are complete from there
    /// on, at most one for each place, and writes their values in the first places; or answers that
    /// no more will come. It takes no memory.
    pub fn try_get(&mut self, out: &mut [Outcome]) -> Result<GotBlock, Tried<WaitRefusal>>
        ensures call { let old = member_in self.old in let new = member_in self.new in
            Tries ((new ≡ old) × (out.new ≡ out.old))
            (WaitsBlock (value_by (member_op self.old)) (limits_on old.at) old.number old.seen
            new.seen out.old out.new) result }
        ensures stays { Stays (member_in self.old) (member_in self.new) }
        ensures op { member_op self.new ≡ member_op self.old }
        ensures known { result ≢ Err (Tried.Refused WaitRefusal.NoTask) }
        ensures alone { IsAlone (member_in self.old) → result ≢ Err Tried.Busy }
    {
        each!(self, one => one.try_get(out))
    }

    /// Registers a child in a mode that its own mode holds, at both of its phases. It may take
    /// memory.
    pub fn try_add(&mut self, mode: Mode) -> Result<AnyMember<'a>, Tried<RegisterRefusal>>
        ensures call { Tries (member_in self.new ≡ member_in self.old)
            (AddsAny mode self.old self.new) result }
        ensures stays { Stays (member_in self.old) (member_in self.new) }
        ensures op { member_op self.new ≡ member_op self.old }
        ensures known { result ≢ Err (Tried.Refused RegisterRefusal.NoTask) }
        ensures alone { IsAlone (member_in self.old) → result ≢ Err Tried.Busy }
    {
        each_child!(self, one => one.try_add(mode))
    }

    /// Registers a child in `Wait`, at the first phase that is not complete, and answers it with
    /// that phase. Its own mode has to hold `Wait`. It may take memory.
    pub fn try_add_now(&mut self) -> Result<(AnyMember<'a>, u64), Tried<RegisterRefusal>>
        ensures call { Tries (member_in self.new ≡ member_in self.old)
            (AddsAnyNow self.old self.new) result }
        ensures stays { Stays (member_in self.old) (member_in self.new) }
        ensures op { member_op self.new ≡ member_op self.old }
        ensures known { result ≢ Err (Tried.Refused RegisterRefusal.NoTask) }
        ensures alone { IsAlone (member_in self.old) → result ≢ Err Tried.Busy }
    {
        match self {
            AnyMember::Sum(one) => match one.try_add_now() {
                Ok((child, start)) => Ok((AnyMember::Sum(child), start)),
                Err(refusal) => Err(refusal),
            },
            AnyMember::Product(one) => match one.try_add_now() {
                Ok((child, start)) => Ok((AnyMember::Product(child), start)),
                Err(refusal) => Err(refusal),
            },
            AnyMember::Least(one) => match one.try_add_now() {
                Ok((child, start)) => Ok((AnyMember::Least(child), start)),
                Err(refusal) => Err(refusal),
            },
            AnyMember::Greatest(one) => match one.try_add_now() {
                Ok((child, start)) => Ok((AnyMember::Greatest(child), start)),
                Err(refusal) => Err(refusal),
            },
            AnyMember::Any(one) => match one.try_add_now() {
                Ok((child, start)) => Ok((AnyMember::Any(child), start)),
                Err(refusal) => Err(refusal),
            },
        }
    }

    /// Registers a child, as `try_add` does. It waits for its turn.
    pub fn add<W: Wait>(&mut self, rt: &W, mode: Mode) -> Result<AnyMember<'a>, RegisterRefusal>
        ensures call { AddsAny mode self.old self.new result }
        ensures stays { Stays (member_in self.old) (member_in self.new) }
        ensures op { member_op self.new ≡ member_op self.old }
        ensures known { result ≢ Err RegisterRefusal.NoTask }
    {
        each_child!(self, one => one.add(rt, mode))
    }

    /// Ends the registration. Where another is in the middle of a call it comes back as it was. It
    /// takes no memory.
    pub fn try_leave(self) -> Result<AnyLeft<'a>, AnyMember<'a>>
        ensures ok { IfOk result (λ left. HasLeftPhaser (member_in self.entry) (left_in left)
            × (left_op left ≡ member_op self.entry)) }
        ensures err { IfErr result (λ back. back ≡ self.entry) }
        ensures alone { IsAlone (member_in self.entry) → IsOk result }
    {
        match self {
            AnyMember::Sum(one) => match one.try_leave() {
                Ok(left) => Ok(AnyLeft::Sum(left)),
                Err(back) => Err(AnyMember::Sum(back)),
            },
            AnyMember::Product(one) => match one.try_leave() {
                Ok(left) => Ok(AnyLeft::Product(left)),
                Err(back) => Err(AnyMember::Product(back)),
            },
            AnyMember::Least(one) => match one.try_leave() {
                Ok(left) => Ok(AnyLeft::Least(left)),
                Err(back) => Err(AnyMember::Least(back)),
            },
            AnyMember::Greatest(one) => match one.try_leave() {
                Ok(left) => Ok(AnyLeft::Greatest(left)),
                Err(back) => Err(AnyMember::Greatest(back)),
            },
            AnyMember::Any(one) => match one.try_leave() {
                Ok(left) => Ok(AnyLeft::Any(left)),
                Err(back) => Err(AnyMember::Any(back)),
            },
        }
    }

    /// Ends the registration, as `try_leave` does. It waits for its turn.
    pub fn leave<W: Wait>(self, rt: &W) -> AnyLeft<'a>
        ensures left { HasLeftPhaser (member_in self.entry) (left_in result) }
        ensures op { left_op result ≡ member_op self.entry }
    {
        match self {
            AnyMember::Sum(one) => AnyLeft::Sum(one.leave(rt)),
            AnyMember::Product(one) => AnyLeft::Product(one.leave(rt)),
            AnyMember::Least(one) => AnyLeft::Least(one.leave(rt)),
            AnyMember::Greatest(one) => AnyLeft::Greatest(one.leave(rt)),
            AnyMember::Any(one) => AnyLeft::Any(one.leave(rt)),
        }
    }
}
