//! The sends that a registration holds, and the word that says them where they are few.
ghost use Rattle.std.specs.Prelude.{◌≡◌, ◌≢◌, ◌↔◌, ◌+◌, ℤ, List, [], ◌∷◌, ◌++◌, OnOk, OnErr, IfSome};
ghost use Rattle.phase_base.specs.declared.limits.TheConstants.{SENDS_MAX};
ghost use Rattle.phase_accum.specs.declared.outcome.TheConstants.{NO_VALUE};
ghost use Rattle.phase_accum.specs.Parcels.{StandsForSends};
ghost use Rattle.phase_shared.specs.Lanes.{sends_of};

use crate::lane_words::{NO_SEND, word_of};
use phase_accum::{Accumulate, Pending, SendFault};
use std::marker::Model;

// Sends that are held. The word says them, where they are none, or one that came alone.
#[derive(Drop)]
pub struct Held<A: Accumulate> {
    sends: Pending<A>,
    word: Option<u64>,
}

impl<A: Accumulate> Model for Held<A> {
    ghost use Rattle.std.specs.Prelude.{IfSome};
    ghost use Rattle.phase_accum.specs.Parcels.{Parcel, StandsForSends};
    ghost use Rattle.phase_shared.specs.Lanes.{sends_of};

    ghost Value = { Parcel A };

    ghost view = { λ h. h.sends };

    ghost invariant = { λ h. IfSome h.word (λ n. StandsForSends A.operation h.sends (sends_of n)) };
}

impl<A: Accumulate> Held<A> {
    // Holds none.
    pub fn new() -> Held<A>
        ensures stands { StandsForSends A.operation result [] }
        ensures count { result.count ≡ 0 }
    {
        Held {
            sends: Pending::new(),
            word: Some(NO_SEND),
        }
    }

    // Holds these.
    pub fn these(sends: Pending<A>) -> Held<A>
        ensures { result ≡ sends }
    {
        Held { sends, word: None }
    }

    // Holds one more, as `Pending::send` does.
    pub fn send(&mut self, value: i64) -> Result<(), SendFault>
        ensures stands { OnOk result ((sends : List ℤ)
            → StandsForSends A.operation self.old sends
            → StandsForSends A.operation self.new (sends ++ value ∷ [])) }
        ensures count { OnOk result (self.new.count ≡ self.old.count + 1) }
        ensures bad_value { (result ≡ Err SendFault.BadValue) ↔ (value ≡ NO_VALUE) }
        ensures too_many { (result ≡ Err SendFault.TooManySends)
            ↔ ((value ≢ NO_VALUE) × (self.old.count ≡ SENDS_MAX)) }
        ensures err { OnErr result (self.new ≡ self.old) }
    {
        match self.sends.send(value) {
            Ok(()) => {}
            Err(fault) => return Err(fault),
        }
        self.word = match self.word {
            Some(NO_SEND) => Some(word_of(value)),
            _ => None,
        };
        Ok(())
    }

    // How many are held.
    pub fn count(&self) -> u64
        ensures value { result ≡ self.now.count }
        ensures held { (sends : List ℤ) × StandsForSends A.operation self.now sends }
    {
        let _part = self.sends.part();
        self.sends.count()
    }

    // All of them.
    pub fn sends(&self) -> Pending<A>
        ensures { result ≡ self.now }
    {
        self.sends
    }

    // The word that says them, where one does.
    pub fn word(&self) -> Option<u64>
        ensures { IfSome result (λ n. StandsForSends A.operation self.now (sends_of n)) }
    {
        self.word
    }
}
