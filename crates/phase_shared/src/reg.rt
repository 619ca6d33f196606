//! A registration, and what it reads and holds without a turn.
ghost use Rattle.std.specs.Prelude.{◌≡◌, ◌≢◌, ◌↔◌, ◌+◌, ℤ, List, [], ◌∷◌, ◌++◌, Some, is_some, Err, OnOk, OnErr, true, false};
ghost use Rattle.phase_base.specs.declared.limits.TheConstants.{SENDS_MAX};
ghost use Rattle.phase_base.specs.Members.{entry_of};
ghost use Rattle.phase_base.specs.Modes.{mode_signals};
ghost use Rattle.phase_accum.specs.declared.outcome.TheConstants.{NO_VALUE};
ghost use Rattle.phase_accum.specs.Parcels.{StandsForSends};
ghost use Rattle.phase_history.specs.Histories.{members_of};
ghost use Rattle.phase_shared.specs.Regs.{IsGoodOn};

use crate::held::Held;
use crate::phaser::Phaser;
use crate::refusal::SendRefusal;
use crate::rule::SignalRule;
use crate::seats::spins::Spins;
use crate::seats::view::PhaserSeat;
use phase_accum::{Accumulate, Pending, SendFault};
use phase_base::{Entry, Mode};
use std::marker::Model;

/// One registration on a phaser, which any one thread has at a time.
///
/// **What it has.** A number, which nobody else has on its phaser; a mode and two phases; the sends
/// that it holds until its next signal; and, in proofs alone, the history that it has seen. Each
/// call makes that history longer, by what the others did meanwhile and by its own event.
///
/// **Calls.** A call on the phaser names it. The calls that take a `Wait` wait until they have an
/// answer that more waiting would not change. The others answer at once, and those that begin with
/// `try_` answer `Busy` where another registration is in the middle of a call.
///
/// **Memory.** `register`, `try_register`, `register_now` and `try_register_now` alone take memory.
///
/// **End.** It cannot be thrown away. `leave` and `try_leave` end it, and give a `Past`.
///
/// **Not promised.** That a `Busy` could not have been avoided, in what order threads get on, and
/// that a waiting call ever returns.
pub struct Reg<A: Accumulate, K: SignalRule> {
    pub(crate) seat: Option<PhaserSeat<A, K>>,
    pub(crate) number: u64,
    pub(crate) entry: Entry,
    pub(crate) pending: Held<A>,
    pub(crate) spins: Spins,
}

impl<A: Accumulate, K: SignalRule> Model for Reg<A, K> {
    ghost use Rattle.phase_shared.specs.Regs.{RegState, reg_state, IsReg};

    ghost Value = { RegState A K };

    ghost view = { λ r. reg_state r.seat r.number r.entry r.pending };

    ghost invariant = { λ r. IsReg K.allows r.seat r.number r.entry };
}

// Takes a seat from where a registration keeps it, for the time of a call.
pub(crate) fn taken<T>(kept: &mut Option<T>) -> T
    requires { is_some kept.old ≡ true }
    ensures { kept.old ≡ Some result }
{
    let Some(seat) = kept.take() else {
        unreachable!()
    };
    seat
}

impl<A: Accumulate, K: SignalRule> Reg<A, K> {
    /// Holds one more send, behind the others, until the next signal. It takes no turn and no
    /// memory.
    pub fn send(&mut self, value: i64) -> Result<(), SendRefusal>
        ensures stands { OnOk result ((sends : List ℤ)
            → StandsForSends A.operation self.old.held sends
            → StandsForSends A.operation self.new.held (sends ++ value ∷ [])) }
        ensures count { OnOk result (self.new.held.count ≡ self.old.held.count + 1) }
        ensures same { (self.new.at ≡ self.old.at) × (self.new.number ≡ self.old.number)
            × (self.new.entry ≡ self.old.entry) × (self.new.seen ≡ self.old.seen) }

        ensures no_signal { (result ≡ Err SendRefusal.NoSignal)
            ↔ (mode_signals self.old.entry.mode ≡ false) }
        ensures bad_value { (result ≡ Err SendRefusal.BadValue)
            ↔ ((mode_signals self.old.entry.mode ≡ true) × (value ≡ NO_VALUE)) }
        ensures too_many { (result ≡ Err SendRefusal.TooManySends)
            ↔ ((mode_signals self.old.entry.mode ≡ true) × (value ≢ NO_VALUE)
            × (self.old.held.count ≡ SENDS_MAX)) }
        ensures err { OnErr result (self.new ≡ self.old) }
    {
        if !self.mode().signals() {
            return Err(SendRefusal::NoSignal);
        }
        match self.pending.send(value) {
            Ok(()) => Ok(()),
            Err(SendFault::BadValue) => Err(SendRefusal::BadValue),
            Err(SendFault::TooManySends) => Err(SendRefusal::TooManySends),
        }
    }

    /// Holds these sends, and no others. It takes no turn and no memory.
    ///
    /// They may be more than its mode allows: then its signal is refused.
    pub fn hold_these(&mut self, sends: Pending<A>)
        ensures held { self.new.held ≡ sends }
        ensures same { (self.new.at ≡ self.old.at) × (self.new.number ≡ self.old.number)
            × (self.new.entry ≡ self.old.entry) × (self.new.seen ≡ self.old.seen) }
    {
        self.pending = Held::these(sends);
    }

    /// Holds no sends. It takes no turn and no memory.
    pub fn hold_none(&mut self)
        ensures none_held { StandsForSends A.operation self.new.held []
            × (self.new.held.count ≡ 0) }
        ensures same { (self.new.at ≡ self.old.at) × (self.new.number ≡ self.old.number)
            × (self.new.entry ≡ self.old.entry) × (self.new.seen ≡ self.old.seen) }
    {
        self.pending = Held::new();
    }

    /// Returns how many sends it holds.
    pub fn pending(&self) -> u64
        ensures value { result ≡ self.now.held.count }
        // There are sends that it holds, so many.
        ensures held { (sends : List ℤ) × StandsForSends A.operation self.now.held sends }
    {
        self.pending.count()
    }

    /// Says what holds of a registration wherever it was kept meanwhile, as in a list or under a
    /// lock: its history is legal and keeps the rule, and it is registered there. It takes no turn
    /// and does nothing.
    pub fn look(&self)
        ensures good { IsGoodOn K.allows self.now.at self.now.seen }
        ensures entry { entry_of (members_of self.now.seen) self.now.number
            ≡ Some self.now.entry }
    {
        let _number = self.number;
    }

    /// Returns its number, which nobody else has on its phaser.
    pub fn number(&self) -> u64
        ensures { result ≡ self.now.number }
    {
        self.number
    }

    /// Returns its mode.
    pub fn mode(&self) -> Mode
        ensures value { result ≡ self.now.entry.mode }
        // It is registered in the history that it has seen, in this mode and at these phases.
        ensures entry { entry_of (members_of self.now.seen) self.now.number
            ≡ Some self.now.entry }
    {
        self.entry.mode
    }

    /// Returns its signal phase and its wait phase.
    pub fn phase(&self) -> (u64, u64)
        ensures value { result ≡ (self.now.entry.signal_phase, self.now.entry.wait_phase) }
        ensures entry { entry_of (members_of self.now.seen) self.now.number
            ≡ Some self.now.entry }
    {
        (self.entry.signal_phase, self.entry.wait_phase)
    }

    /// Returns how many of the phases that `next` went to were told by another's turn, which had
    /// made its wait for it, and how many of these before it tried to take a turn: that one had
    /// made its signal too. It takes no turn.
    ///
    /// These are counts for tests and measurements, and no contract speaks of them.
    pub fn answers(&self) -> (u64, u64) {
        self.spins.counts()
    }

    /// Returns how many phases from its signal phase on are not ahead, as far as the turns that
    /// have ended tell: there may be room for more by now. It takes no turn. Each turn tells it
    /// from the first call on.
    ///
    /// It is a hint for how much to signal next, and no contract speaks of it.
    pub fn room(&self, phaser: &Phaser<A, K>) -> u64 {
        phaser.locked.hints.room(self.entry.signal_phase)
    }
}
