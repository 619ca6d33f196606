//! The sends that a task holds.
ghost use Rattle.std.specs.Prelude.{◌≡◌, ◌≢◌, ◌↔◌, ◌+◌, ◌≤◌, ℤ, List, [], ◌∷◌, ◌++◌, OnOk, OnErr, ⊤};
ghost use Rattle.phase_accum.specs.Parcels.{StandsForSends};

use crate::accumulate::Accumulate;
use crate::outcome::NO_VALUE;
use phase_base::SENDS_MAX;
use std::alloc::AllocError;
use std::marker::Model;
use thiserror::Error;

/// Why a send was refused.
#[derive(Clone, Copy, Debug, PartialEq, Eq, Hash, Error)]
pub enum SendFault {
    /// The value is `NO_VALUE`.
    #[error("{NO_VALUE} is no value and cannot be sent")]
    BadValue,
    /// The task holds `SENDS_MAX` sends already.
    #[error("the task holds {SENDS_MAX} sends already, and must signal first")]
    TooManySends,
}

/// The sends that a task holds until its next signal, as their part and their number.
#[derive(Copy, Debug, PartialEq, Eq)]
pub struct Pending<A: Accumulate> {
    part: A,
    count: u64,
}

impl<A: Accumulate> Model for Pending<A> {
    ghost use Rattle.std.specs.Prelude.{ℤ, List};
    ghost use Rattle.phase_accum.specs.Parcels.{Parcel, StandsForSends, parcel};

    ghost Value = { Parcel A };

    ghost view = { λ p. parcel p.part p.count };

    ghost invariant = { λ p. (sends : List ℤ)
        × StandsForSends A.operation (parcel p.part p.count) sends };

    ghost inverse = { λ p. record { part = p.part; count = p.count } };
}

impl<A: Accumulate> Clone for Pending<A> {
    ghost is_clone = { λ held copy. copy ≡ held };

    ghost is_infallible = { λ _. ⊤ };

    fn clone(&self) -> Result<Pending<A>, AllocError> {
        Ok(*self)
    }
}

impl<A: Accumulate> Pending<A> {
    /// Makes the pending sends of a task that holds none.
    pub fn new() -> Pending<A>
        ensures stands { StandsForSends A.operation result [] }
        ensures part { result.part ≡ A.operation.unit }
        ensures count { result.count ≡ 0 }
    {
        Pending {
            part: A::unit(),
            count: 0,
        }
    }

    /// Holds one more send, behind the others, until the task's next signal. It takes no memory.
    ///
    /// `NO_VALUE` is refused as `BadValue` also where `SENDS_MAX` sends are held.
    pub fn send(&mut self, value: i64) -> Result<(), SendFault>
        ensures stands { OnOk result ((sends : List ℤ) → StandsForSends A.operation self.old sends
            → StandsForSends A.operation self.new (sends ++ value ∷ [])) }
        ensures part { OnOk result
            (self.new.part ≡ A.operation.join self.old.part (A.operation.of value)) }
        ensures count { OnOk result (self.new.count ≡ self.old.count + 1) }
        ensures bad_value { (result ≡ Err SendFault.BadValue) ↔ (value ≡ NO_VALUE) }
        ensures too_many { (result ≡ Err SendFault.TooManySends)
            ↔ ((value ≢ NO_VALUE) × (self.old.count ≡ SENDS_MAX)) }
        ensures err { OnErr result (self.new ≡ self.old) }
    {
        if value == NO_VALUE {
            return Err(SendFault::BadValue);
        }
        if self.count >= SENDS_MAX {
            return Err(SendFault::TooManySends);
        }
        self.part = A::join(self.part, A::of(value));
        self.count += 1;
        Ok(())
    }

    /// Returns how many sends are held.
    pub fn count(&self) -> u64
        ensures value { result ≡ self.now.count }
        ensures few { result ≤ SENDS_MAX }
    {
        self.count
    }

    /// Returns the part of the sends that are held.
    pub fn part(&self) -> A
        ensures value { result ≡ self.now.part }
        ensures held { (sends : List ℤ) × StandsForSends A.operation self.now sends }
    {
        self.part
    }

    /// Holds the sends of `other` too, behind its own.
    pub fn absorb(&mut self, other: Pending<A>)
        requires { self.old.count + other.count ≤ SENDS_MAX }
        ensures stands { (sends others : List ℤ) → StandsForSends A.operation self.old sends
            → StandsForSends A.operation other others
            → StandsForSends A.operation self.new (sends ++ others) }
        ensures part { self.new.part ≡ A.operation.join self.old.part other.part }
        ensures count { self.new.count ≡ self.old.count + other.count }
    {
        self.part = A::join(self.part, other.part);
        self.count += other.count;
    }
}
