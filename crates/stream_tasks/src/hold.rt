//! What a task holds of a phaser.
ghost use Rattle.std.specs.Prelude.{◌≡◌, ◌≢◌, ◌↔◌, [], ◌∷◌, length, Err, IfOk, IsOk, OnErr, OnOk};
ghost use Rattle.stream_tasks.specs.Holds.{HoldGoesOn, HasSendPlaces, MemberHasSignalled, WaitGave, HasSeenOthers, IsAtMost, HoldLeaves};
ghost use Rattle.phase_base.specs.declared.operation.Op.{Op};
ghost use Rattle.stream_members.specs.AnyMembers.{room_for};
ghost use Rattle.stream_tasks.specs.Registering.{AddsTo, AddsNowTo};
ghost use Rattle.stream_tasks.specs.Standings.{entry_held};

use crate::held::Held;
use phase_accum::{Outcome, Single};
use phase_base::{Entry, Mode};
use phase_core::{GotBlock, RegisterRefusal, SignalRefusal, WaitRefusal};
use phase_history::laws;
use phase_shared::Tried;
use std::mem;
use std::sync::Wait;
use stream_members::{AnyLeft, AnyMember, Places, PutRefusal};

/// What a task holds of a phaser: its registration, until it leaves.
pub enum Hold<'a> {
    On(AnyMember<'a>),
    Gone,
}

/// What a wait gave.
#[derive(Clone, Copy, Debug, PartialEq, Eq)]
pub enum Given {
    /// So many values, one at least.
    Values(usize),
    /// No more will come.
    Ended,
}

impl<'a> Hold<'a> {
    /// How many phases may be signalled, as far as is known without a turn. It is a hint.
    pub fn room(&self) -> u64 {
        match self {
            Hold::On(member) => member.room(),
            Hold::Gone => 0,
        }
    }

    /// How many values a wait would get, as far as is known without a turn. It is a hint.
    pub fn ready(&self) -> u64 {
        match self {
            Hold::On(member) => member.ready(),
            Hold::Gone => 0,
        }
    }

    /// The mode and the phases of the registration, until it leaves.
    pub fn entry(&self) -> Option<Entry>
        ensures { result ≡ entry_held self.now }
    {
        match self {
            Hold::On(member) => Some(member.entry()),
            Hold::Gone => None,
        }
    }

    /// Signals with one value.
    pub fn put(&mut self, value: i64, single: Option<Single>) -> Result<(), Held>
        ensures ok { OnOk result
            (HoldGoesOn (MemberHasSignalled (value ∷ []) single) self.old self.new) }
        ensures err { OnErr result (HoldGoesOn HasSeenOthers self.old self.new) }
    {
        laws::others_come();
        let Hold::On(member) = self else {
            return Err(Held::Stuck);
        };
        signalled(member.try_put(value, single))
    }

    /// Signals with these values, one a phase. There are places for their sends.
    pub fn put_all(
        &mut self,
        values: &[i64],
        single: Option<Single>,
        places: &mut Places,
    ) -> Result<(), Held>
        requires { HasSendPlaces self.old (length values.now) places.old }
        ensures ok { OnOk result
            (HoldGoesOn (MemberHasSignalled values.now single) self.old self.new) }
        ensures err { OnErr result (HoldGoesOn HasSeenOthers self.old self.new) }
        ensures places { (op : Op) → room_for op places.new ≡ room_for op places.old }
    {
        laws::others_come();
        let Hold::On(member) = self else {
            return Err(Held::Stuck);
        };
        signalled(member.try_put_all(values, single, places))
    }

    /// Waits for the next values, as many as there are places at most, which get them.
    pub fn get(&mut self, out: &mut [Outcome]) -> Result<Given, Held>
        ensures call { HoldGoesOn (WaitGave result out.new) self.old self.new }
        ensures few { IfOk result (IsAtMost (length out.old)) }
        ensures busy { result ≡ Err Held.Busy → self.new ≡ self.old }
        ensures out { length out.new ≡ length out.old }
    {
        laws::others_come();
        laws::answers();
        let Hold::On(member) = self else {
            return Err(Held::Stuck);
        };
        match member.try_get(out) {
            Ok(GotBlock::Values { phase: _, count }) => Ok(Given::Values(count as usize)),
            Ok(GotBlock::Ended) => Ok(Given::Ended),
            Err(Tried::Busy) => Err(Held::Busy),
            Err(Tried::Refused(WaitRefusal::NotYet)) => Err(Held::Blocked),
            Err(_) => Err(Held::Stuck),
        }
    }

    /// Registers a child.
    pub fn add(&mut self, mode: Mode) -> Result<AnyMember<'a>, Held>
        ensures ok { IfOk result (AddsTo mode self.old self.new) }
        ensures err { OnErr result (HoldGoesOn HasSeenOthers self.old self.new) }
    {
        laws::others_come();
        let Hold::On(member) = self else {
            return Err(Held::Stuck);
        };
        match member.try_add(mode) {
            Ok(child) => Ok(child),
            Err(Tried::Busy) => Err(Held::Busy),
            Err(Tried::Refused(RegisterRefusal::OutOfMemory)) => Err(Held::OutOfMemory),
            Err(_) => Err(Held::Stuck),
        }
    }

    /// Registers a child that joins now, and tells where it begins.
    pub fn add_now(&mut self) -> Result<(AnyMember<'a>, u64), Held>
        ensures ok { IfOk result (λ child. AddsNowTo self.old self.new child.0 child.1) }
        ensures err { OnErr result (HoldGoesOn HasSeenOthers self.old self.new) }
    {
        laws::others_come();
        let Hold::On(member) = self else {
            return Err(Held::Stuck);
        };
        match member.try_add_now() {
            Ok(child) => Ok(child),
            Err(Tried::Busy) => Err(Held::Busy),
            Err(Tried::Refused(RegisterRefusal::OutOfMemory)) => Err(Held::OutOfMemory),
            Err(_) => Err(Held::Stuck),
        }
    }

    /// Leaves the phaser, or stays registered there where another's call is under way.
    pub fn leave(&mut self) -> Result<AnyLeft<'a>, Held>
        ensures ok { IfOk result (HoldLeaves self.old self.new) }
        ensures err { OnErr result (self.new ≡ self.old) }
    {
        match mem::replace(self, Hold::Gone) {
            Hold::On(member) => match member.try_leave() {
                Ok(left) => Ok(left),
                Err(back) => match mem::replace(self, Hold::On(back)) {
                    Hold::Gone => Err(Held::Busy),
                    Hold::On(_other) => unreachable!(),
                },
            },
            Hold::Gone => Err(Held::Stuck),
        }
    }

    /// Leaves, by waiting, and forgets what it has seen.
    pub fn dismiss<W: Wait>(self, rt: &W) {
        match self {
            Hold::On(member) => drop(member.leave(rt)),
            Hold::Gone => {}
        }
    }
}

/// What a signal answers that found places for its sends.
fn signalled(answer: Result<u64, PutRefusal>) -> Result<(), Held>
    requires { answer ≢ Err PutRefusal.TooMany }
    ensures { IsOk result ↔ IsOk answer }
{
    match answer {
        Ok(_) => Ok(()),
        Err(PutRefusal::Busy) => Err(Held::Busy),
        Err(PutRefusal::Refused(SignalRefusal::Ahead)) => Err(Held::Blocked),
        Err(PutRefusal::Refused(SignalRefusal::Spent)) => Err(Held::Blocked),
        Err(PutRefusal::TooMany) => unreachable!(),
        Err(_) => Err(Held::Stuck),
    }
}
