//! What a ring keeps of one phase.
ghost use Rattle.std.specs.Prelude.{◌≡◌, ◌+◌, ◌-◌, ◌<◌, ◌≤◌};
ghost use Rattle.phase_accum.specs.Singles.{differs};

use crate::choice::{Choice, choice_for, told};
use crate::role::Role;
use phase_accum::{Accumulate, Outcome, Pending, Single};
use phase_base::{MEMBERS_MAX, SENDS_MAX};
use std::marker::Model;

/// Why sends were not joined to those of a phase.
#[derive(Clone, Copy, Debug, PartialEq, Eq, Hash)]
pub enum MergeRefusal {
    /// The first signal of the phase named otherwise.
    SingleDiffers,
    /// The phase would have more than `SENDS_MAX` sends.
    PhaseFull,
}

/// Returns whether a signal that names `single`, or none, joins signals that named otherwise.
fn is_other(named: Option<Option<Single>>, single: Option<Single>) -> bool
    ensures { result ≡ differs named single }
{
    match named {
        None => false,
        Some(first) => first != single,
    }
}

/// What a ring keeps of one phase, in few bytes: between threads a slot goes from one processor to
/// another and back.
#[derive(Drop)]
pub struct Slot<A: Copy> {
    part: A,
    ends: (i64, i64),
    count: u64,
    signallers: u16,
    waiters: u16,
    choice: Choice,
    sealed: bool,
}

impl<A: Copy> Model for Slot<A> {
    ghost use Rattle.phase_ring.specs.Slots.{Slot};
    ghost use Rattle.phase_ring.specs.Choices.{named_of, IsNamed};

    ghost Value = { Slot A };

    ghost view = { λ s. record {
      part = s.part;
      count = s.count;
      named = named_of s.choice s.ends;
      sealed = s.sealed;
      signallers = s.signallers;
      waiters = s.waiters;
    } };

    ghost invariant = { λ s. IsNamed s.choice s.ends };
}

impl<A: Copy> Slot<A> {
    ghost use Rattle.phase_ring.specs.Slots.{standing_of, with_standing, merge_refusal, sealed};

    // Tells what the first signal named, where there is one.
    fn named(&self) -> Option<Option<Single>>
        ensures { result ≡ self.now.named }
    {
        told(self.choice, self.ends)
    }

    /// Why so many more sends do not join the phase.
    pub fn refusal(&self, count: u64, single: &Option<Single>) -> Option<MergeRefusal>
        requires { self.now.count ≤ SENDS_MAX }
        ensures { result ≡ merge_refusal self.now count single.now }
    {
        if is_other(self.named(), *single) {
            return Some(MergeRefusal::SingleDiffers);
        }
        (count > SENDS_MAX - self.count).then_some(MergeRefusal::PhaseFull)
    }

    /// Returns how many of the role stand at the phase.
    pub fn standing(&self, role: Role) -> u16
        ensures { result ≡ standing_of role self.now }
    {
        match role {
            Role::Signaller => self.signallers,
            Role::Waiter => self.waiters,
        }
    }

    /// One more of the role stands at the phase.
    pub fn enter(&mut self, role: Role)
        requires { standing_of role self.old < MEMBERS_MAX }
        ensures { self.new ≡ with_standing role (standing_of role self.old + 1) self.old }
    {
        match role {
            Role::Signaller => self.signallers += 1,
            Role::Waiter => self.waiters += 1,
        }
    }

    /// One of the role, of which some stand at the phase, leaves it.
    pub fn leave(&mut self, role: Role)
        requires { 0 < standing_of role self.old }
        ensures { self.new ≡ with_standing role (standing_of role self.old - 1) self.old }
    {
        match role {
            Role::Signaller => self.signallers -= 1,
            Role::Waiter => self.waiters -= 1,
        }
    }

    /// Makes the phase complete.
    pub fn seal(&mut self)
        ensures { self.new ≡ sealed self.old }
    {
        self.sealed = true;
    }
}

impl<A: Accumulate> Slot<A> {
    ghost use Rattle.phase_ring.specs.Restarts.{one_slot};
    ghost use Rattle.phase_accum.specs.Sends.{IsSend};
    ghost use Rattle.phase_ring.specs.Slots.{empty_slot, joined, slot_value, IsHeld, IsUnused};

    /// The slot of a phase that no signal has joined, and at which nobody stands.
    pub fn empty() -> Slot<A>
        ensures value { result ≡ empty_slot A.operation }
        ensures held { IsHeld A.operation result }
    {
        Slot {
            part: A::unit(),
            ends: (0, 0),
            count: 0,
            signallers: 0,
            waiters: 0,
            choice: Choice::Unsignalled,
            sealed: false,
        }
    }

    /// The slot of a complete phase of this one send and no single, at which nobody stands.
    pub(crate) fn of_one(value: i64) -> Slot<A>
        requires { IsSend value }
        ensures value { result ≡ one_slot A.operation value }
        ensures held { IsHeld A.operation result }
    {
        Slot {
            part: A::of(value),
            ends: (0, 0),
            count: 1,
            signallers: 0,
            waiters: 0,
            choice: Choice::Plain,
            sealed: true,
        }
    }

    /// Joins these sends to the phase's.
    pub fn join(&mut self, pending: &Pending<A>, single: &Option<Single>)
        requires few { self.old.count + pending.now.count ≤ SENDS_MAX }
        requires held { IsHeld A.operation self.old }
        ensures value { self.new ≡ joined A.operation pending.now single.now self.old }
        ensures held { IsHeld A.operation self.new }
    {
        self.part = A::join(self.part, pending.part());
        self.count += pending.count();
        // What the first signal named stays.
        let Choice::Unsignalled = self.choice else {
            return;
        };
        let (choice, ends) = choice_for(single);
        self.choice = choice;
        self.ends = ends;
    }

    // Joins the first sends of the phase. It only writes.
    pub(crate) fn join_first(&mut self, pending: &Pending<A>, single: &Option<Single>)
        requires { IsUnused A.operation self.old }
        ensures value { self.new ≡ joined A.operation pending.now single.now self.old }
        ensures held { IsHeld A.operation self.new }
    {
        let (choice, ends) = choice_for(single);
        self.part = pending.part();
        self.count = pending.count();
        self.choice = choice;
        self.ends = ends;
    }

    /// Returns the value of the sends, with the single applied where one was named.
    pub fn value(&self) -> Outcome
        requires { IsHeld A.operation self.now }
        ensures { result ≡ slot_value A.operation self.now }
    {
        let outcome = self.part.finish();
        match self.named().flatten() {
            Some(single) => phase_accum::apply(single, outcome),
            None => outcome,
        }
    }
}
