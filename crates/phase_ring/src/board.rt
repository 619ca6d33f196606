//! A ring with the first phase that is not complete, and the top.
ghost use Rattle.std.specs.Prelude.{◌≡◌, ℕ, ◌<◌, ◌≤◌, ◌+◌, ◌⊎◌, max, true, false, OnOk, OnErr, IfOk, IfErr, Some, None, [], ◌∷◌, length, drop, ◌++◌};
ghost use Rattle.std.specs.List.{take_while};
ghost use Rattle.phase_accum.specs.Values.{applied};
ghost use Rattle.phase_ring.specs.declared.role.Role.{Role};
ghost use Rattle.phase_ring.specs.declared.role.Role.TheVariants.{Signaller, Waiter};
ghost use Rattle.phase_ring.specs.Slots.{Slot, slot_value, joined, merge_refusal, IsUnused};
ghost use Rattle.phase_ring.specs.Rings.{standing, sents, slot_at, with_slot, is_sealed, cleared, IsWithin, KeepsSlots};
ghost use Rattle.phase_ring.specs.Standings.{one_if_same, other, takes_part, phase_for, counted};
ghost use Rattle.phase_ring.specs.Boards.{IsBoard};
ghost use Rattle.phase_ring.specs.Blocks.{block_joined, block_values, is_not_too_big, BlockFits};
ghost use Rattle.phase_accum.specs.Sends.{AreSends};
ghost use Rattle.phase_ring.specs.Restarts.{MayBePlaced, ring_of_ones};
ghost use Rattle.phase_ring.specs.Calls.{MaySignal, MayWait, IsSettled, KeepsBounds, HasMoved, HasSignalled, HasWaited, HasPassed, StandsAlone, HasLeftBoard};
ghost use Rattle.phase_ring.specs.GoingOn.{MayGoOn};

use crate::role::Role;
use crate::slot_ring::SlotRing;
use phase_accum::{Accumulate, Outcome, Pending, Single};
use phase_base::{Entry, MEMBERS_MAX, PHASES_MAX, Spec};
use std::alloc::{AllocError, Global};

/// The slots of the phases that are kept while a waiter is registered, and which of these phases
/// are complete.
///
/// At the end of each call `done` is the first phase at which a signaller stands, or the top where
/// none stands anywhere, and a waiter stands at the ring's base. All phases below `done` are
/// sealed. `new` alone takes memory.
#[derive(Drop)]
pub struct Board<A: Accumulate> {
    /// The limits of the phaser.
    pub limits: Spec,
    /// The slots of the phases from the slowest waiter's on.
    pub ring: SlotRing<A>,
    /// The first phase that is not complete.
    pub done: u64,
    /// One more than the greatest phase that was ever signalled, or 0.
    pub top: u64,
}

impl<A: Accumulate> Board<A> {
    /// Makes the board of a phaser whose one task stands at phase 0 in both roles, with all the
    /// memory that the board will ever need.
    pub fn new(alloc: Global, limits: Spec) -> Result<Board<A>, AllocError>
        ensures invariant { IfOk result (λ now. IsBoard A.operation now) }
        ensures limits { IfOk result (λ now. now.limits ≡ limits) }
        ensures done { IfOk result (λ now. now.done ≡ 0) }
        ensures top { IfOk result (λ now. now.top ≡ 0) }
        ensures base { IfOk result (λ now. now.ring.base ≡ 0) }
        ensures standing { IfOk result (λ now. (role : Role) (p : ℕ)
            → standing now.ring role p ≡ one_if_same 0 p) }
    {
        let mut ring = SlotRing::<A>::with_bound(alloc, limits.bound())?;
        ring.enter(0, Role::Signaller);
        ring.enter(0, Role::Waiter);
        Ok(Board {
            limits,
            ring,
            done: 0,
            top: 0,
        })
    }

    /// Seals the phases at which no signaller stands any more, up to the top.
    fn settle(&mut self)
        requires { IsBoard A.operation self.old }
        ensures invariant { IsBoard A.operation self.new }
        ensures limits { self.new.limits ≡ self.old.limits }
        ensures top { self.new.top ≡ self.old.top }
        ensures same { sents self.new.ring ≡ sents self.old.ring }
        ensures standing { (role : Role) (p : ℕ)
            → standing self.new.ring role p ≡ standing self.old.ring role p }
        ensures stops { IsSettled self.new }
    {
        while self.done < self.top && self.ring.standing(self.done, Role::Signaller) == 0 {
            self.ring.seal(self.done);
            self.done += 1;
        }
    }

    /// Gives up the phases that no waiter has still to get. Some waiter is left.
    fn give_up(&mut self)
        requires invariant { IsBoard A.operation self.old }
        requires waiter { (p : ℕ) × (0 < standing self.old.ring Waiter p) }
        ensures invariant { IsBoard A.operation self.new }
        ensures keeps { KeepsBounds self.old self.new }
        ensures standing { (role : Role) (p : ℕ)
            → standing self.new.ring role p ≡ standing self.old.ring role p }
        ensures slots { KeepsSlots self.old.ring self.new.ring }
        ensures stops { 0 < standing self.new.ring Waiter self.new.ring.base }
    {
        while self.ring.standing(self.ring.base(), Role::Waiter) == 0 {
            self.ring.release();
        }
    }

    /// Moves a signaller on from a phase to a later one, at most the top.
    fn go_on(&mut self, from: u64, to: u64)
        requires invariant { IsBoard A.operation self.old }
        requires may { MayGoOn from to self.old }
        ensures invariant { IsBoard A.operation self.new }
        ensures limits { self.new.limits ≡ self.old.limits }
        ensures top { self.new.top ≡ self.old.top }
        ensures same { sents self.new.ring ≡ sents self.old.ring }
        ensures moved { HasMoved Signaller from to self.old.ring self.new.ring }
        ensures stops { IsSettled self.new }
    {
        self.ring.leave(from, Role::Signaller);
        self.ring.enter(to, Role::Signaller);
        self.settle();
    }

    // Joins sends to a phase that does not refuse them. No signal has joined the phases from the
    // top on: there it only writes.
    fn join(&mut self, phase: u64, pending: &Pending<A>, single: &Option<Single>)
        requires within { IsWithin self.old.ring phase }
        requires below { phase + 1 < self.old.ring.base + length self.old.ring.slots }
        requires incomplete { is_sealed self.old.ring phase ≡ false }
        requires fits { (slot : Slot A) → slot_at self.old.ring phase ≡ Some slot
            → merge_refusal slot pending.now.count single.now ≡ None }
        requires unused { self.old.top ≤ phase → (slot : Slot A)
            → slot_at self.old.ring phase ≡ Some slot → IsUnused A.operation slot }
        ensures keeps { KeepsBounds self.old self.new }
        ensures slot { (slot : Slot A) → slot_at self.old.ring phase ≡ Some slot
            → let more = joined A.operation pending.now single.now slot in
            self.new.ring ≡ with_slot phase more self.old.ring }
    {
        if phase >= self.top {
            self.ring.join_first(phase, pending, single);
            return;
        }
        self.ring.join(phase, pending, single);
    }

    /// Joins a signal to its phase, which does not refuse it, and moves its task on to the next
    /// one.
    pub fn signal(&mut self, phase: u64, pending: &Pending<A>, single: &Option<Single>)
        requires invariant { IsBoard A.operation self.old }
        requires may { MaySignal phase (phase + 1) self.old }
        requires fits { BlockFits self.old.ring phase (pending.now ∷ []) single.now }
        ensures invariant { IsBoard A.operation self.new }
        ensures signalled { HasSignalled phase (phase + 1) self.old self.new }
        ensures slots { sents self.new.ring ≡ sents
            (block_joined A.operation phase (pending.now ∷ []) single.now self.old.ring) }
        ensures stops { IsSettled self.new }
    {
        self.join(phase, pending, single);
        self.top = self.top.max(phase + 1);
        self.go_on(phase, phase + 1);
    }

    /// Joins the signals of a block to their phases, of which this is the first and none refuses
    /// its one, and moves their task on to the phase behind them.
    pub fn signal_block(&mut self, phase: u64, lists: &[Pending<A>], single: &Option<Single>)
        requires invariant { IsBoard A.operation self.old }
        requires may { MaySignal phase (phase + length lists.now) self.old }
        requires fits { BlockFits self.old.ring phase lists.now single.now }
        ensures invariant { IsBoard A.operation self.new }
        ensures signalled { HasSignalled phase (phase + length lists.now) self.old self.new }
        ensures slots { sents self.new.ring
            ≡ sents (block_joined A.operation phase lists.now single.now self.old.ring) }
        ensures stops { IsSettled self.new }
    {
        let mut next = phase;
        for pending in lists {
            self.join(next, pending, single);
            next += 1;
        }
        self.top = self.top.max(next);
        self.go_on(phase, next);
    }

    /// Moves a waiter on from a phase to a later one, at most the first that is not complete, and
    /// gives up the phases that no waiter has still to get.
    pub fn move_waiter(&mut self, from: u64, to: u64)
        requires invariant { IsBoard A.operation self.old }
        requires may { MayWait from to self.old }
        ensures invariant { IsBoard A.operation self.new }
        ensures waited { HasWaited from to self.old self.new }
        ensures slots { KeepsSlots (sents self.old.ring) (sents self.new.ring) }
        ensures stops { 0 < standing self.new.ring Waiter self.new.ring.base }
    {
        self.ring.leave(from, Role::Waiter);
        self.ring.enter(to, Role::Waiter);
        self.give_up();
    }

    /// Returns the value of a waiter's phase, which is complete, and moves the waiter on to the
    /// next one.
    pub fn wait(&mut self, phase: u64) -> Outcome
        requires invariant { IsBoard A.operation self.old }
        requires may { MayWait phase (phase + 1) self.old }
        ensures value { (slot : Slot A) → slot_at self.old.ring phase ≡ Some slot
            → result ≡ slot_value A.operation slot }
        ensures invariant { IsBoard A.operation self.new }
        ensures waited { HasWaited phase (phase + 1) self.old self.new }
        ensures slots { KeepsSlots (sents self.old.ring) (sents self.new.ring) }
        ensures stops { 0 < standing self.new.ring Waiter self.new.ring.base }
    {
        let outcome = self.ring.value(phase);
        self.move_waiter(phase, phase + 1);
        outcome
    }

    /// Writes the values of so many phases, the first this one of a waiter and all complete, and
    /// moves the waiter on to the phase behind them. The places behind the values stay.
    pub fn wait_block(&mut self, phase: u64, count: usize, out: &mut [Outcome])
        requires invariant { IsBoard A.operation self.old }
        requires may { MayWait phase (phase + count) self.old }
        requires room { count ≤ length out.old }
        ensures out { out.new
            ≡ block_values A.operation self.old.ring phase count ++ drop count out.old }
        ensures invariant { IsBoard A.operation self.new }
        ensures waited { HasWaited phase (phase + count) self.old self.new }
        ensures slots { KeepsSlots (sents self.old.ring) (sents self.new.ring) }
        ensures stops { 0 < standing self.new.ring Waiter self.new.ring.base }
    {
        for i in 0..count {
            out[i] = self.ring.value(phase + i as u64);
        }
        self.move_waiter(phase, phase + count as u64);
    }

    /// Counts the values of phases in a row before the first that is too big. At most so many
    /// phases are looked at, the first this one of a waiter and all complete.
    pub fn good_ahead(&self, phase: u64, most: usize) -> usize
        requires invariant { IsBoard A.operation self.now }
        requires may { MayWait phase (phase + most) self.now }
        ensures { let values = block_values A.operation self.now.ring phase most in
            result ≡ length (take_while is_not_too_big values) }
    {
        for i in 0..most {
            let outcome = self.ring.value(phase + i as u64);
            if let Outcome::TooBig = outcome {
                return i;
            }
        }
        most
    }

    /// Passes a phase of the only task, whose signal and wait both are for the base and which no
    /// signal has joined: returns the value of its sends, with the single applied, and moves the
    /// task on in both roles. No slot changes, since the phase has no sends of others and leaves
    /// none.
    pub fn pass(&mut self, pending: &Pending<A>, single: &Option<Single>) -> Outcome
        requires invariant { IsBoard A.operation self.old }
        requires alone { StandsAlone self.old.ring.base self.old }
        requires fresh { self.old.top ≡ self.old.ring.base }
        requires far { self.old.top < PHASES_MAX }
        ensures value { result ≡ applied single.now (A.operation.finish pending.now.part) }
        ensures invariant { IsBoard A.operation self.new }
        ensures passed { HasPassed self.old self.new }
        ensures alone { StandsAlone self.new.ring.base self.new }
    {
        let outcome = pending.part().finish();
        self.ring.shift();
        self.done += 1;
        self.top += 1;
        match *single {
            Some(single) => phase_accum::apply(single, outcome),
            None => outcome,
        }
    }

    /// Raises the top to this one, where no waiter is registered and nobody looks at the slots.
    pub fn raise_top(&mut self, top: u64)
        requires { top ≤ PHASES_MAX }
        ensures limits { self.new.limits ≡ self.old.limits }
        ensures ring { self.new.ring ≡ self.old.ring }
        ensures done { self.new.done ≡ self.old.done }
        ensures top { self.new.top ≡ max self.old.top top }
    {
        self.top = self.top.max(top);
    }

    /// Empties each slot, where the last waiter has left.
    pub fn clear(&mut self)
        ensures limits { self.new.limits ≡ self.old.limits }
        ensures ring { self.new.ring ≡ cleared A.operation self.old.ring }
        ensures done { self.new.done ≡ self.old.done }
        ensures top { self.new.top ≡ self.old.top }
    {
        self.ring.clear();
    }

    /// Lets a task with this entry stand at its phase of the role, where it has one.
    fn enter_as(&mut self, role: Role, entry: Entry)
        requires invariant { IsBoard A.operation self.old }
        requires stands { takes_part role entry ≡ true
            → 0 < standing self.old.ring role (phase_for role entry) }
        requires few { standing self.old.ring role (phase_for role entry) < MEMBERS_MAX }
        ensures invariant { IsBoard A.operation self.new }
        ensures keeps { KeepsBounds self.old self.new }
        ensures same { sents self.new.ring ≡ sents self.old.ring }
        ensures standing { (p : ℕ) → standing self.new.ring role p
            ≡ standing self.old.ring role p + counted role entry p }
        ensures others { (p : ℕ) → standing self.new.ring (other role) p
            ≡ standing self.old.ring (other role) p }
    {
        if role.is_of(entry) {
            self.ring.enter(role.phase_of(entry), role);
        }
    }

    /// Lets a task with this entry stand at its phase of the role no more, where it has one.
    fn leave_as(&mut self, role: Role, entry: Entry)
        requires invariant { IsBoard A.operation self.old }
        requires stands { takes_part role entry ≡ true
            → 0 < standing self.old.ring role (phase_for role entry) }
        ensures invariant { IsBoard A.operation self.new }
        ensures keeps { KeepsBounds self.old self.new }
        ensures same { sents self.new.ring ≡ sents self.old.ring }
        ensures standing { (p : ℕ) → standing self.new.ring role p + counted role entry p
            ≡ standing self.old.ring role p }
        ensures others { (p : ℕ) → standing self.new.ring (other role) p
            ≡ standing self.old.ring (other role) p }
    {
        if role.is_of(entry) {
            self.ring.leave(role.phase_of(entry), role);
        }
    }

    /// Has a complete phase of one send for each of these values from now on, the first the phase
    /// `base`. Nobody stands at any phase.
    pub fn restart(&mut self, base: u64, front: &[i64], back: &[i64])
        requires sends { AreSends front.now × AreSends back.now }
        requires long { length self.old.ring.slots ≡ self.old.limits.bound + 1 }
        requires near { length front.now + length back.now ≤ self.old.limits.bound }
        requires far { base + length front.now + length back.now ≤ PHASES_MAX }
        ensures invariant { IsBoard A.operation self.new }
        ensures limits { self.new.limits ≡ self.old.limits }
        ensures ring { self.new.ring ≡ ring_of_ones A.operation (length self.old.ring.slots) base
            (front.now ++ back.now) }
        ensures top { (self.new.top ≡ base + length (front.now ++ back.now))
            × (self.new.done ≡ self.new.top) }
        ensures standing { (role : Role) (p : ℕ) → standing self.new.ring role p ≡ 0 }
    {
        self.ring.restart(base, front, back);
        self.top = base + front.len() as u64 + back.len() as u64;
        self.done = self.top;
    }

    /// Lets a task with this entry stand at its phase of the role, where it has one and somebody
    /// may stand there.
    fn place_as(&mut self, role: Role, entry: Entry)
        requires invariant { IsBoard A.operation self.old }
        requires place { takes_part role entry ≡ true
            → MayBePlaced role (phase_for role entry) self.old }
        requires few { standing self.old.ring role (phase_for role entry) < MEMBERS_MAX }
        ensures invariant { IsBoard A.operation self.new }
        ensures keeps { KeepsBounds self.old self.new }
        ensures same { sents self.new.ring ≡ sents self.old.ring }
        ensures standing { (p : ℕ) → standing self.new.ring role p
            ≡ standing self.old.ring role p + counted role entry p }
        ensures others { (p : ℕ) → standing self.new.ring (other role) p
            ≡ standing self.old.ring (other role) p }
    {
        if role.is_of(entry) {
            self.ring.enter(role.phase_of(entry), role);
        }
    }

    /// Lets a task with this entry stand at its phases, where somebody may stand.
    pub fn place(&mut self, entry: Entry)
        requires invariant { IsBoard A.operation self.old }
        requires place { (role : Role) → takes_part role entry ≡ true
            → MayBePlaced role (phase_for role entry) self.old }
        requires few { (role : Role) (p : ℕ) → standing self.old.ring role p < MEMBERS_MAX }
        ensures invariant { IsBoard A.operation self.new }
        ensures keeps { KeepsBounds self.old self.new }
        ensures same { sents self.new.ring ≡ sents self.old.ring }
        ensures standing { (role : Role) (p : ℕ) → standing self.new.ring role p
            ≡ standing self.old.ring role p + counted role entry p }
    {
        self.place_as(Role::Signaller, entry);
        self.place_as(Role::Waiter, entry);
    }

    /// Lets a task with this entry stand at its phases, at which others stand already.
    pub fn register(&mut self, entry: Entry)
        requires invariant { IsBoard A.operation self.old }
        requires stands { (role : Role) → takes_part role entry ≡ true
            → 0 < standing self.old.ring role (phase_for role entry) }
        requires few { (role : Role) (p : ℕ) → standing self.old.ring role p < MEMBERS_MAX }
        ensures invariant { IsBoard A.operation self.new }
        ensures keeps { KeepsBounds self.old self.new }
        ensures same { sents self.new.ring ≡ sents self.old.ring }
        ensures standing { (role : Role) (p : ℕ) → standing self.new.ring role p
            ≡ standing self.old.ring role p + counted role entry p }
    {
        self.enter_as(Role::Signaller, entry);
        self.enter_as(Role::Waiter, entry);
    }

    /// Lets one more waiter stand at the first phase that is not complete.
    pub fn join_now(&mut self)
        requires invariant { IsBoard A.operation self.old }
        requires few { standing self.old.ring Waiter self.old.done < MEMBERS_MAX }
        ensures invariant { IsBoard A.operation self.new }
        ensures keeps { KeepsBounds self.old self.new }
        ensures same { sents self.new.ring ≡ sents self.old.ring }
        ensures standing { (p : ℕ) → standing self.new.ring Waiter p
            ≡ standing self.old.ring Waiter p + one_if_same self.old.done p }
        ensures others { (p : ℕ)
            → standing self.new.ring Signaller p ≡ standing self.old.ring Signaller p }
    {
        self.ring.enter(self.done, Role::Waiter);
    }

    /// Lets a task with this entry stand at its phases no more. Some waiter is left.
    pub fn leave(&mut self, entry: Entry)
        requires invariant { IsBoard A.operation self.old }
        requires stands { (role : Role) → takes_part role entry ≡ true
            → 0 < standing self.old.ring role (phase_for role entry) }
        requires waiter { (p : ℕ) × (counted Waiter entry p < standing self.old.ring Waiter p) }
        ensures invariant { IsBoard A.operation self.new }
        ensures left { HasLeftBoard entry self.old self.new }
        ensures slots { KeepsSlots (sents self.old.ring) (sents self.new.ring) }
        ensures settled { IsSettled self.new }
        ensures stops { 0 < standing self.new.ring Waiter self.new.ring.base }
    {
        self.leave_as(Role::Signaller, entry);
        self.leave_as(Role::Waiter, entry);
        self.settle();
        self.give_up();
    }
}
