//! The ring of slots.
ghost use Rattle.std.specs.Prelude.{◌≡◌, ◌+◌, ◌-◌, ◌^◌, ◌<◌, ◌≤◌, ◌++◌, [], None, Some, length, map, replicate, true, false, OnOk, OnErr, IfOk, IfErr};
ghost use Rattle.circular_buffer.specs.Buffer.{buffer};
ghost use Rattle.phase_ring.specs.declared.role.Role.TheVariants.{Waiter};
ghost use Rattle.phase_ring.specs.Slots.{Slot, empty_slot, IsHeld, IsUnused, with_standing, standing_of, joined, sealed, slot_value, merge_refusal};
ghost use Rattle.phase_accum.specs.Sends.{AreSends};
ghost use Rattle.phase_ring.specs.Restarts.{one_slot, ring_of_ones};
ghost use Rattle.phase_ring.specs.Rings.{Ring, ring, standing, IsWithin, slot_at, with_slot, is_sealed, fresh_ring, released, cleared};

use crate::role::Role;
use crate::slot::{MergeRefusal, Slot};
use circular_buffer::HeapCircularBuffer;
use phase_accum::{Accumulate, Outcome, Pending, Single};
use phase_base::{BOUND_MAX, MEMBERS_MAX, SENDS_MAX};
use std::alloc::{AllocError, Global};
use std::marker::Model;

/// A window of phases: a slot for each of so many in a row. The phase of the first is the base. The
/// window only advances: where the first is given up, an empty slot for the phase behind the last
/// takes its place.
///
/// A phase that is handed in lies within the ring: it is not below the base, and less than the
/// number of slots above it.
#[derive(Drop)]
pub struct SlotRing<A: Accumulate> {
    base: u64,
    slots: HeapCircularBuffer<Slot<A>>,
}

impl<A: Accumulate> Model for SlotRing<A> {
    ghost use Rattle.phase_ring.specs.Rings.{Ring, ring, IsRing};

    ghost Value = { Ring A };

    ghost view = { λ r. ring r.base r.slots.items };

    ghost invariant = { λ r. IsRing A.operation r.slots.items r.slots.capacity };
}

impl<A: Accumulate> SlotRing<A> {
    /// Makes a ring of `bound + 1` empty slots from phase 0 on, with all the memory that it will
    /// ever need.
    pub fn with_bound(alloc: Global, bound: u64) -> Result<SlotRing<A>, AllocError>
        requires { bound ≤ BOUND_MAX }
        ensures { IfOk result (λ ring. ring ≡ fresh_ring A.operation (bound + 1)) }
    {
        let mut slots = HeapCircularBuffer::with_capacity(alloc, bound as usize + 1)?;
        SlotRing::<A>::fill(&mut slots);
        Ok(SlotRing { base: 0, slots })
    }

    /// Fills an empty buffer with empty slots.
    fn fill(slots: &mut HeapCircularBuffer<Slot<A>>)
        requires { slots.old.items ≡ [] }
        ensures { let room = slots.old.capacity in
            slots.new ≡ buffer (replicate room (empty_slot A.operation)) room }
    {
        for _ in 0..slots.capacity() {
            slots.push_back(Slot::<A>::empty());
        }
    }

    // Puts slots behind the others, a complete one for each of these values.
    fn put_ones(slots: &mut HeapCircularBuffer<Slot<A>>, values: &[i64])
        requires sends { AreSends values.now }
        requires room { length slots.old.items + length values.now ≤ slots.old.capacity }
        ensures { slots.new ≡ buffer (slots.old.items ++ map (one_slot A.operation) values.now)
            slots.old.capacity }
    {
        for value in values {
            slots.push_back(Slot::<A>::of_one(*value));
        }
    }

    // Fills a buffer with empty slots behind those that it has.
    fn fill_up(slots: &mut HeapCircularBuffer<Slot<A>>)
        ensures { let more = replicate (slots.old.capacity - length slots.old.items)
            (empty_slot A.operation) in
            slots.new ≡ buffer (slots.old.items ++ more) slots.old.capacity }
    {
        for _ in slots.len()..slots.capacity() {
            slots.push_back(Slot::<A>::empty());
        }
    }

    /// Has a complete phase of one send for each of these values from now on, the first the phase
    /// `base`, and empty slots behind them. Nobody stands at any phase.
    pub fn restart(&mut self, base: u64, front: &[i64], back: &[i64])
        requires sends { AreSends front.now × AreSends back.now }
        requires room { length front.now + length back.now ≤ length self.old.slots }
        ensures { self.new ≡ ring_of_ones A.operation (length self.old.slots) base
            (front.now ++ back.now) }
    {
        self.slots.clear();
        SlotRing::<A>::put_ones(&mut self.slots, front);
        SlotRing::<A>::put_ones(&mut self.slots, back);
        SlotRing::<A>::fill_up(&mut self.slots);
        self.base = base;
    }

    /// Returns the phase of the first slot.
    pub fn base(&self) -> u64
        ensures { result ≡ self.now.base }
    {
        self.base
    }

    /// The slot of a phase.
    fn slot(&self, phase: u64) -> &Slot<A>
        requires { IsWithin self.now phase }
        ensures slot { slot_at self.now phase ≡ Some result.now }
        ensures held { IsHeld A.operation result.now }
    {
        match self.slots.get((phase - self.base) as usize) {
            Some(slot) => slot,
            None => unreachable!(),
        }
    }

    /// Joins the sends of a signal to those of its phase, or hands them back. It takes no memory.
    ///
    /// The phase is not complete, and not the last of the ring.
    pub fn merge(
        &mut self,
        phase: u64,
        pending: Pending<A>,
        single: Option<Single>,
    ) -> Result<(), (MergeRefusal, Pending<A>)>
        requires within { IsWithin self.old phase }
        requires below { phase + 1 < self.old.base + length self.old.slots }
        requires incomplete { is_sealed self.old phase ≡ false }
        ensures ok { OnOk result ((slot : Slot A) → slot_at self.old phase ≡ Some slot
            → (merge_refusal slot pending.count single ≡ None)
            × (self.new ≡ with_slot phase (joined A.operation pending single slot) self.old)) }
        ensures refused { IfErr result (λ e.
            (slot : Slot A) → slot_at self.old phase ≡ Some slot
            → merge_refusal slot pending.count single ≡ Some e.0) }
        ensures pending { IfErr result (λ e. e.1 ≡ pending) }
        ensures err { OnErr result (self.new ≡ self.old) }
    {
        if let Err(refusal) = self.can_merge(phase, pending.count(), single) {
            return Err((refusal, pending));
        }
        self.join(phase, &pending, &single);
        Ok(())
    }

    /// Tells why so many more sends would not join a phase, as `merge` would. It merges nothing.
    ///
    /// The phase is not complete, and not the last of the ring.
    pub fn can_merge(
        &self,
        phase: u64,
        count: u64,
        single: Option<Single>,
    ) -> Result<(), MergeRefusal>
        requires within { IsWithin self.now phase }
        requires below { phase + 1 < self.now.base + length self.now.slots }
        requires incomplete { is_sealed self.now phase ≡ false }
        ensures ok { OnOk result ((slot : Slot A) → slot_at self.now phase ≡ Some slot
            → merge_refusal slot count single ≡ None) }
        ensures refused { IfErr result (λ e.
            (slot : Slot A) → slot_at self.now phase ≡ Some slot
            → merge_refusal slot count single ≡ Some e) }
    {
        match self.slot(phase).refusal(count, &single) {
            Some(refusal) => Err(refusal),
            None => Ok(()),
        }
    }

    /// Joins sends that the phase does not refuse. It takes no memory.
    ///
    /// The phase is not complete, and not the last of the ring.
    pub(crate) fn join(&mut self, phase: u64, pending: &Pending<A>, single: &Option<Single>)
        requires within { IsWithin self.old phase }
        requires below { phase + 1 < self.old.base + length self.old.slots }
        requires incomplete { is_sealed self.old phase ≡ false }
        requires fits { (slot : Slot A) → slot_at self.old phase ≡ Some slot
            → merge_refusal slot pending.now.count single.now ≡ None }
        ensures { (slot : Slot A) → slot_at self.old phase ≡ Some slot
            → let more = joined A.operation pending.now single.now slot in
            self.new ≡ with_slot phase more self.old }
    {
        match self.slots.get_mut((phase - self.base) as usize) {
            Some(slot) => slot.join(pending, single),
            None => unreachable!(),
        }
    }

    // Joins the first sends of a phase that no signal has joined. It reads nothing of its slot.
    pub(crate) fn join_first(&mut self, phase: u64, pending: &Pending<A>, single: &Option<Single>)
        requires within { IsWithin self.old phase }
        requires below { phase + 1 < self.old.base + length self.old.slots }
        requires unused { (slot : Slot A) → slot_at self.old phase ≡ Some slot
            → IsUnused A.operation slot }
        ensures { (slot : Slot A) → slot_at self.old phase ≡ Some slot
            → let more = joined A.operation pending.now single.now slot in
            self.new ≡ with_slot phase more self.old }
    {
        match self.slots.get_mut((phase - self.base) as usize) {
            Some(slot) => slot.join_first(pending, single),
            None => unreachable!(),
        }
    }

    /// Seals a phase, which is complete from now on. It was not before, and is not the last of the
    /// ring.
    pub fn seal(&mut self, phase: u64)
        requires within { IsWithin self.old phase }
        requires below { phase + 1 < self.old.base + length self.old.slots }
        requires incomplete { is_sealed self.old phase ≡ false }
        ensures { (slot : Slot A) → slot_at self.old phase ≡ Some slot
            → self.new ≡ with_slot phase (sealed slot) self.old }
    {
        match self.slots.get_mut((phase - self.base) as usize) {
            Some(slot) => slot.seal(),
            None => unreachable!(),
        }
    }

    /// Returns the value of a complete phase, with the single applied that its first signal named.
    pub fn value(&self, phase: u64) -> Outcome
        requires within { IsWithin self.now phase }
        requires complete { is_sealed self.now phase ≡ true }
        ensures { (slot : Slot A) → slot_at self.now phase ≡ Some slot
            → result ≡ slot_value A.operation slot }
    {
        self.slot(phase).value()
    }

    /// One more of the role stands at the phase.
    pub fn enter(&mut self, phase: u64, role: Role)
        requires within { IsWithin self.old phase }
        requires few { standing self.old role phase < MEMBERS_MAX }
        ensures { (slot : Slot A) → slot_at self.old phase ≡ Some slot
            → let more = standing_of role slot + 1 in
            self.new ≡ with_slot phase (with_standing role more slot) self.old }
    {
        match self.slots.get_mut((phase - self.base) as usize) {
            Some(slot) => slot.enter(role),
            None => unreachable!(),
        }
    }

    /// One of the role leaves the phase, at which some of it stand.
    pub fn leave(&mut self, phase: u64, role: Role)
        requires within { IsWithin self.old phase }
        requires some { 0 < standing self.old role phase }
        ensures { (slot : Slot A) → slot_at self.old phase ≡ Some slot
            → let fewer = standing_of role slot - 1 in
            self.new ≡ with_slot phase (with_standing role fewer slot) self.old }
    {
        match self.slots.get_mut((phase - self.base) as usize) {
            Some(slot) => slot.leave(role),
            None => unreachable!(),
        }
    }

    /// Returns how many of the role stand at the phase.
    pub fn standing(&self, phase: u64, role: Role) -> u32
        requires { IsWithin self.now phase }
        ensures { result ≡ standing self.now role phase }
    {
        u32::from(self.slot(phase).standing(role))
    }

    /// Gives up the first phase, at which no waiter stands, and has an empty slot for one more
    /// behind the last.
    pub fn release(&mut self)
        requires far { self.old.base < 2 ^ 62 }
        requires unwanted { standing self.old Waiter self.old.base ≡ 0 }
        ensures { self.new ≡ released A.operation self.old }
    {
        // The buffer is full, so its first slot goes.
        self.slots.push_back(Slot::<A>::empty());
        self.base += 1;
    }

    // Moves each slot on to the next phase. The last phase of the ring is a new one, and the slot
    // of the first is that of the second now.
    pub(crate) fn shift(&mut self)
        requires { self.old.base < 2 ^ 62 }
        ensures { self.new ≡ ring (self.old.base + 1) self.old.slots }
    {
        self.base += 1;
    }

    /// Empties every slot, and keeps the base.
    pub fn clear(&mut self)
        ensures { self.new ≡ cleared A.operation self.old }
    {
        self.slots.clear();
        SlotRing::<A>::fill(&mut self.slots);
    }
}
